// The lines of moves and of entries, read and judged.
#![tactic(auto)]

pub mod entries;
pub mod moves;
pub mod verdict;
