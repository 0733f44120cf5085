// The two forms that take a reference to structs: a list of runs that the caller lends, and a logical partition.
// Scope: Which places take which form (the lent list of runs, `update_chs` by &mut). Rules: F, U.
// For callers: `lent_list::free_into`, `update::update_chs`.
#![tactic(auto)]

pub mod lent_list;
pub mod update;
