// What the programs over cases share: the words of a line, what its commands work on, how a value is written.
// Scope: How much each contract must say (the other numbers are run and compared).
// For the programs `case_…` alone.
#![tactic(auto)]

pub mod cases;
pub mod given;
pub mod line;
pub mod show;
pub mod shown;
