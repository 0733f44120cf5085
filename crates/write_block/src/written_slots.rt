// The slots of a block as writing leaves them, put where they stand. Internal.
ghost use Rattle.std.specs.Prelude.{◌≡◌, ◌<◌, length};
ghost use Rattle.std.specs.Prelude.{None};
ghost use Rattle.base.specs.Checks.{first-fail};
ghost use Rattle.table.specs.Table.{most};
ghost use Rattle.block.specs.Block.{slot_put, slots_put, table_in, block_length, Passed};
ghost use Rattle.block.specs.Fits.{SlotFits, SlotsFit};
ghost use Rattle.write_rules.specs.AsWritten.{slots_geometry, as_written_in};

use table::LogicalPartition;

// A logical partition into slot i, whose fields hold its numbers.
fn put_fit(b: &mut [u8], i: usize, l: LogicalPartition)
    requires { (length b.old ≡ block_length) × (i < most) }
    ensures b_after { b.new ≡ slot_put b.old i l }
    ensures slot_fits { SlotFits l }
{
    block_slot::slot_put::put_into(b, i, l);
}

// Every logical partition of a block as writing leaves it, if the extended entry starts at x.
pub fn put_slots(b: &mut [u8], x: u32)
    requires { Passed b.old × (first-fail (slots_geometry (table_in b.old) x) ≡ None) }
    ensures b_after { b.new ≡ slots_put b.old (as_written_in (table_in b.old) x) }
    ensures slots_fit { SlotsFit (as_written_in (table_in b.old) x) }
{
    // By number: the partitions stand in the bytes of the block and not in a slice.
    for i in 0..block_read::fields::count(b) {
        let l = write_logicals::addressed::addressed_slot(b, x, i).unwrap();
        put_fit(b, i, l);
    }
}
