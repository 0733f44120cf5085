// A slot more, a primary less, another disk: put into a block where it lies. Internal: the block has passed its checks.
ghost use Rattle.std.specs.Prelude.{◌≡◌, ◌≤◌, ◌<◌, length};
ghost use Rattle.table.specs.Table.{most};
ghost use Rattle.block.specs.Block.{block_length};
ghost use Rattle.block_slot.specs.Changed.{with_slot, without_entry, with_disk};

use block::ENTRY;
use record_entry::MBRPartitionEntry;
use table::LogicalPartition;

// A logical partition behind n others.
pub fn add_slot(b: &mut [u8], n: usize, l: LogicalPartition)
    requires { (length b.old ≡ block_length) × (n < most) }
    ensures { b.new ≡ with_slot b.old n l }
{
    base::put32(b, 12, (n + 1) as u32);
    crate::slot_put::put_into(b, n, l);
}

// Primary number i, 1 to 4, away.
pub fn clear_primary(b: &mut [u8], i: usize)
    requires { (length b.old ≡ block_length) × (1 ≤ i) × (i < 5) }
    ensures { b.new ≡ without_entry b.old i }
{
    crate::slot_out::put_entry(b, 466 + ENTRY * (i - 1), MBRPartitionEntry::empty());
}

// Another sector size and D.
pub fn put_disk(b: &mut [u8], size: u32, disk: u32)
    requires { length b.old ≡ block_length }
    ensures { b.new ≡ with_disk b.old size disk }
{
    base::put32(b, 0, size);
    base::put32(b, 4, disk);
}
