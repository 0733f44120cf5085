// A block that is read: its checks, then the table in it or its fields where they lie.
// Scope: none, it is ours; refusal 6 of a count. Rules: Z.
// For our crates: `checks::check`, `parts_in::get_table`, `fields`.
#![tactic(auto)]

pub mod checks;
pub mod fields;
pub mod parts_in;
pub mod slot_in;
pub mod tags;
