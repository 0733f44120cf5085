// A new logical partition in a block.
ghost use Rattle.std.specs.Prelude.{◌≡◌, ◌<◌, length};
ghost use Rattle.std.specs.Prelude.{None};
ghost use Rattle.record_ebr.specs.Ebr.{no_kept};
ghost use Rattle.table.specs.Table.{most};
ghost use Rattle.block.specs.Block.{block_length};
ghost use Rattle.block_slot.specs.Changed.{with_slot};

use record_ebr::Kept;
use table::LogicalPartition;

// A logical partition behind n others that has neither code nor mark: their zeros are put from here, and not carried along.
pub fn add_new(b: &mut [u8], n: usize, l: LogicalPartition)
    requires { (length b.old ≡ block_length) × (n < most) × (l.kept ≡ no_kept) }
    ensures { b.new ≡ with_slot b.old n l }
{
    block_slot::in_place::add_slot(
        b,
        n,
        LogicalPartition {
            kept: Kept::empty(),
            ..l
        },
    );
}
