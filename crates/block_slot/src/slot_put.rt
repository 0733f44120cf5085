// A logical partition put into a slot of a block, with its tag.
ghost use Rattle.std.specs.Prelude.{◌≡◌, ◌<◌, length};
ghost use Rattle.table.specs.Table.{most};
ghost use Rattle.block.specs.Block.{slot_part, tag_of, slot_put, slot_length, block_length};

use table::LogicalPartition;

// The tag of a logical partition: which of its two values are there.
pub fn tag_of(l: LogicalPartition) -> u8
    ensures { result ≡ tag_of l }
{
    match (l.ebr_sectors, l.ebr_last_chs) {
        (None, None) => 0,
        (Some(_), None) => 1,
        (None, Some(_)) => 2,
        (Some(_), Some(_)) => 3,
    }
}

// A logical partition into slot i of a block.
pub fn put_into(b: &mut [u8], i: usize, l: LogicalPartition)
    requires { (length b.old ≡ block_length) × (i < most) }
    ensures b_after { b.new ≡ slot_put b.old i l }
    ensures l_len { length (slot_part l) ≡ slot_length }
{
    let tag = tag_of(l);
    crate::slot_out::put_slot(b, block::slot_at(i), l);
    base::put8(b, block::tag_at(i), tag);
}
