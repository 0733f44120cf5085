// A logical partition of a block taken out where it lies. Internal: the block has passed its checks.
ghost use Rattle.std.specs.Prelude.{◌≡◌, ◌+◌, ◌≤◌, ◌<◌, length};
ghost use Rattle.base.specs.Put.{put};
ghost use Rattle.table.specs.Table.{most};
ghost use Rattle.block.specs.Block.{part, block_length};
ghost use Rattle.block_slot.specs.Changed.{without_slot};

use block::SLOT;

// The n bytes from index `to + by` on, `by` places earlier.
fn move_down(b: &mut [u8], to: usize, by: usize, n: usize)
    requires { to + by + n ≤ length b.old }
    ensures { b.new ≡ put b.old to (part b.old (to + by) n) }
{
    b.copy_within(to + by..to + by + n, to);
}

// Logical partition k of n, counted from 0, away: the slots behind it and their tags move.
pub fn drop_slot(b: &mut [u8], n: usize, k: usize)
    requires { (length b.old ≡ block_length) × (k < n) × (n ≤ most) }
    ensures { b.new ≡ without_slot b.old n k }
{
    base::put32(b, 12, (n - 1) as u32);
    move_down(b, block::slot_at(k), SLOT, SLOT * (n - 1 - k));
    move_down(b, block::tag_at(k), 1, n - 1 - k);
}
