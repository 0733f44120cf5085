// The rules of a sound table, as facts and as tests of its parts.
// Scope: Careful changes (Sound). Rules: S.
// For our crates: `each`, `by_itself`, `in_turn`; `sound_test` has the test of a whole table.
#![tactic(auto)]

pub mod by_itself;
pub mod each;
pub mod in_turn;
