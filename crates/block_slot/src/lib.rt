// One slot of a block: written, put or dropped where it lies.
// Scope: none, it is ours. Rules: Z.
// For our crates: `slot_out::put_slot`, `slot_put::put_into`, `slot_drop::drop_slot`, `in_place`.
#![tactic(auto)]

pub mod in_place;
pub mod slot_drop;
pub mod slot_out;
pub mod slot_put;
