// The logical partitions of a block as writing leaves them, and the refusals of their addresses. Internal.
ghost use Rattle.std.specs.Prelude.{◌≡◌, ◌<◌, get_or};
ghost use Rattle.std.specs.Prelude.{None};
ghost use Rattle.base.specs.Said.{answered, refusal};
ghost use Rattle.base.specs.Checks.{answer, first-fail};
ghost use Rattle.table.specs.Table.{logicals, no_logical};
ghost use Rattle.block.specs.Block.{table_in, Passed};
ghost use Rattle.table_push.specs.Push.{geometry_of};
ghost use Rattle.write_rules.specs.AsWritten.{first_at_start, slot_geometry, slots_geometry, as_written_in};

use base::Refusal;
use table::LogicalPartition;

// The logical partition of a slot, placed and with its addresses, if the geometry is complete.
pub fn addressed_slot(b: &[u8], x: u32, i: usize) -> Result<LogicalPartition, Refusal>
    requires { Passed b.now × (i < (table_in b.now).count) }
    ensures { answered result ≡ answer (slot_geometry (geometry_of (table_in b.now)) (get_or (first_at_start x (logicals (table_in b.now))) i no_logical)) (get_or (as_written_in (table_in b.now) x) i no_logical) }
{
    let l = crate::in_slots::placed_slot(b, x, i);
    table_address::four::with_geometry(block_read::fields::geometry(b), l)
}

// A logical partition as writing leaves it, where no address is refused.
pub fn written_slot(b: &[u8], x: u32, i: usize) -> LogicalPartition
    requires { Passed b.now × (i < (table_in b.now).count) × (first-fail (slots_geometry (table_in b.now) x) ≡ None) }
    ensures { result ≡ get_or (as_written_in (table_in b.now) x) i no_logical }
{
    addressed_slot(b, x, i).unwrap()
}

// The addresses of one logical partition after the other.
pub fn addresses(b: &[u8], x: u32) -> Result<(), Refusal>
    requires { Passed b.now }
    ensures { refusal result ≡ first-fail (slots_geometry (table_in b.now) x) }
{
    // By number: the partitions stand in the bytes of the block and not in a slice.
    for i in 0..block_read::fields::count(b) {
        addressed_slot(b, x, i)?;
    }
    Ok(())
}
