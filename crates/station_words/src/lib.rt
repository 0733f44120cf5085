// The words of the program `station`: its arguments, its help, what it says on standard error.
// Scope: none, it is ours; docs/OPERATOR.md tells how the program is used.
// For the crates `station…` alone.
#![tactic(auto)]

pub mod args;
pub mod errors;
pub mod geometry;
pub mod help;
pub mod hex;
pub mod options;
pub mod paths;
pub mod size;
pub mod wrong;
