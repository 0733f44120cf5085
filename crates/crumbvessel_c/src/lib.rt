// The library for programs in C: the functions of include/crumbvessel.h under their own names.
// Scope: none of its own. Each calls the function of the same name in a crate `abi_…` and repeats its clauses.
// For callers: C, by libcrumbvessel.a, which ./build makes of this crate. Rattle crates call the crates `abi_…`.
#![tactic(auto)]

pub mod addresses;
pub mod changes;
pub mod extracts;
pub mod headers;
pub mod lookups;
pub mod tables;
pub mod writing;
