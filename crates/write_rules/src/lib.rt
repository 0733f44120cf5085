// What writing refuses, says and leaves: definitions and laws.
// Scope: module 8 (record 0 and each EBR laid over in chain order; 1; 3, 4; 2; geometry; per logical 4, 2, 18; 22, 19). Rules: W.
// For our crates: the definitions that the other crates of writing promise, and the numbers of the sources.
#![tactic(auto)]

pub mod sources;
