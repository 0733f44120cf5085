// The stores of a careful change: shown to the operator, or put on the disk behind a copy of its extract.
// Scope: Careful changes, on real disks.
// For the programs `station` and `station_shown`.
#![tactic(auto)]

pub mod output;
pub mod put;
pub mod save;
pub mod store;
