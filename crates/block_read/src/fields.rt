// What stands in a block, read where it stands. Internal: the block has passed its checks.
ghost use Rattle.std.specs.Prelude.{◌≡◌, ◌<◌, length, get_or};
ghost use Rattle.record_entry.specs.Entry.{no_entry};
ghost use Rattle.record_mbr.specs.Mbr.{primaries};
ghost use Rattle.table.specs.Table.{extended_in, no_logical, most};
ghost use Rattle.block.specs.Block.{table_in, block_length};
ghost use Rattle.table_address.specs.Answers.{geometry_in};

use block::{ENTRY, HEADER};
use record_entry::MBRPartitionEntry;
use table::LogicalPartition;
use table_address::Geometry;

// How many logical partitions.
pub fn count(b: &[u8]) -> usize
    requires { length b.now ≡ block_length }
    ensures { result ≡ (table_in b.now).count }
{
    base::get32(b, 12) as usize
}

// The geometry.
pub fn geometry(b: &[u8]) -> Geometry
    requires { length b.now ≡ block_length }
    ensures { result ≡ geometry_in (table_in b.now).cylinders (table_in b.now).heads (table_in b.now).sectors }
{
    Geometry {
        cylinders: base::get16(b, 16),
        heads: b[18],
        sectors: b[19],
    }
}

// The entry of a primary, counted from 0.
pub fn primary(b: &[u8], i: usize) -> MBRPartitionEntry
    requires { (length b.now ≡ block_length) × (i < 4) }
    ensures { result ≡ get_or (primaries (table_in b.now).header) i no_entry }
{
    crate::slot_in::get_entry(crate::slot_in::part_of(b, 20, HEADER), 446 + ENTRY * i)
}

// The first extended entry.
pub fn extended(b: &[u8]) -> Option<MBRPartitionEntry>
    requires { length b.now ≡ block_length }
    ensures { result ≡ extended_in (table_in b.now) }
{
    // By number: the entries stand in the bytes of the block and not in a slice.
    for i in 0..4 {
        let e = primary(b, i);
        if e.is_extended() {
            return Some(e);
        }
    }
    None
}

// The entry of a logical partition, counted from 0.
pub fn logical(b: &[u8], i: usize) -> MBRPartitionEntry
    requires { (length b.now ≡ block_length) × (i < most) }
    ensures { result ≡ (get_or (table_in b.now).logical_partitions i no_logical).partition }
{
    crate::slot_in::get_entry(crate::slot_in::slot_bytes(b, i), 0)
}

// The place of its EBR.
pub fn ebr_lba(b: &[u8], i: usize) -> u32
    requires { (length b.now ≡ block_length) × (i < most) }
    ensures { result ≡ (get_or (table_in b.now).logical_partitions i no_logical).absolute_ebr_lba.0 }
{
    base::get32(crate::slot_in::slot_bytes(b, i), 18)
}

// The logical partition, whole.
pub fn slot(b: &[u8], i: usize) -> LogicalPartition
    requires { (length b.now ≡ block_length) × (i < most) }
    ensures { result ≡ get_or (table_in b.now).logical_partitions i no_logical }
{
    crate::slot_in::slot_of(b, i)
}
