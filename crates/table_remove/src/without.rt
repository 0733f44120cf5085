// A table with a partition less.
ghost use Rattle.std.specs.Prelude.{◌≡◌, ◌≤◌, ◌<◌};
ghost use Rattle.table.specs.Table.{most};
ghost use Rattle.table_remove.specs.Less.{without, without_primary};

use record_entry::MBRPartitionEntry;
use table::MBR;

// Takes logical partition k, counted from 0, out of the table: the later ones move down by one.
pub fn remove_logical(t: &mut MBR, k: usize)
    requires { (k < t.old.count) × (t.old.count ≤ most) }
    ensures { t.new ≡ without t.old k }
{
    t.logical_partitions.copy_within(k + 1..t.count, k);
    t.count -= 1;
}

// Empties primary number n; the logical partitions stay.
pub fn empty_primary(t: &mut MBR, n: usize)
    ensures { t.new ≡ without_primary t.old n }
{
    let none = MBRPartitionEntry::empty();
    match n {
        1 => t.header.partition_1 = none,
        2 => t.header.partition_2 = none,
        3 => t.header.partition_3 = none,
        4 => t.header.partition_4 = none,
        _ => {}
    }
}
