// Free runs of a block, with its places and its maximum sizes.
// Scope: module 6, for C. Rules: Z.
// For our crates: `runs::free_on`, `places::place_in`, `sizes::size_in`.
#![tactic(auto)]

pub mod places;
pub mod run_bytes;
pub mod runs;
pub mod search;
pub mod sizes;
