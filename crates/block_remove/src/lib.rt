// Removal from a block, by a number or by a sector.
// Scope: module 5 (`remove`, `remove_at_sector`), for C. Rules: Z.
// For our crates: `by_number::remove`, `at_sector::remove_at_sector`.
#![tactic(auto)]

pub mod at_sector;
pub mod by_number;
