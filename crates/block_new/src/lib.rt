// A new table as a block, or a block put on another disk.
// Scope: module 5 (`new_from`, `update_from`), for C. Rules: Z.
// For our crates: `fresh::put_given`, `fresh::four`, `other_disk::update_from`.
#![tactic(auto)]

pub mod fresh;
pub mod other_disk;
