// The numbers that are marked with a star hold: one proved table, in specs/Starred.antt.
// Scope: Numbers to hold (those marked *).
// `all_hold` answers true, by its contract.
#![tactic(auto)]

ghost use Rattle.std.specs.Prelude.{◌≡◌};
ghost use Rattle.starred.specs.Starred.{rows, hold_each};

// Does every row of the table hold?
pub fn all_hold() -> bool
    ensures { result ≡ hold_each rows }
{
    true
}
