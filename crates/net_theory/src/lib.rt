// What shows that a flow is least-cost, that there is none, and that an arc can carry no more or no less;
// walks over free arcs, pushing along them, and what both ask of the lists that they read. Definitions in specs/, lemmas in proofs/.
#![tactic(auto)]
