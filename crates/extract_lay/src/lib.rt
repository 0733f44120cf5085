// A record laid over an extract, into a second buffer.
// Scope: The extract (laying over: 1, 2, 22, 19). Rules: O.
// For callers: `over::lay_over`; for our crates `plan`, by which writing lays several.
#![tactic(auto)]

pub mod over;
pub mod plan;
pub mod replace;
