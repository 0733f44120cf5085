// Lookup in a block: by a number, by a sector; its geometry.
// Scope: module 5 (`find_at_sector`, `check_geometry`), for C. Rules: Z.
// For our crates: `at_sector::{find, find_at_sector}`, `by_number::{entry, get}`, `entry_bytes::put_found`, `geometry_check`.
#![tactic(auto)]

pub mod after_hit;
pub mod at_sector;
pub mod by_number;
pub mod entry_bytes;
pub mod geometry_check;
