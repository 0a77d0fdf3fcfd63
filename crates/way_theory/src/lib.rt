// Ways of a book, its network, and the match of ways and flows: see specs/ and proofs/.
#![tactic(auto)]
