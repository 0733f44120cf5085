// A block as writing leaves it: its slots put where they stand.
// Scope: module 8 (the table as `write_into` leaves it), for C. Rules: Z.
// For our crates: `put_written`.
#![tactic(auto)]

pub mod written_slots;

ghost use Rattle.std.specs.Prelude.{◌≡◌};
ghost use Rattle.std.specs.Prelude.{None};
ghost use Rattle.base.specs.Said.{gives};
ghost use Rattle.base.specs.Checks.{first-fail};
ghost use Rattle.table.specs.Table.{extended_in};
ghost use Rattle.block.specs.Block.{table_in, Passed};
ghost use Rattle.write_rules.specs.Write.{left_by, chain_geometry};
ghost use Rattle.block.specs.Blocks.{block_says};
ghost use Rattle.write_block.specs.Written.{left_in};

// The table in a block as writing leaves it, where no address is refused.
pub fn put_written(b: &mut [u8])
    requires { Passed b.old × (first-fail (chain_geometry (extended_in (table_in b.old)) (table_in b.old)) ≡ None) }
    ensures b_after { b.new ≡ left_in (extended_in (table_in b.old)) b.old (table_in b.old) }
    ensures b_after_2 { block_says b.new ≡ gives (left_by (extended_in (table_in b.old)) (table_in b.old)) }
{
    if let Some(e) = block_read::fields::extended(b) {
        crate::written_slots::put_slots(b, e.starting_lba);
    }
}
