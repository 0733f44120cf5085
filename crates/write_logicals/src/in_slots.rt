// The logical partitions of a block at the places where writing puts them, read where they stand. Internal.
ghost use Rattle.std.specs.Prelude.{◌≡◌, ◌<◌, get_or};
ghost use Rattle.table.specs.Table.{logicals, no_logical};
ghost use Rattle.chain.specs.Facts.{at};
ghost use Rattle.block.specs.Block.{table_in, Passed};
ghost use Rattle.write_rules.specs.AsWritten.{at_start, first_at_start, as_written_in};

use table::{DiskLba, LogicalPartition};

// The EBR at a place, without link sectors and last link CHS.
#[tactic(auto, unfolding(write_rules::specs::AsWritten::at_start))]
fn at_start(x: u32, l: LogicalPartition) -> LogicalPartition
    ensures { result ≡ at_start x l }
{
    LogicalPartition {
        absolute_ebr_lba: DiskLba(x),
        ebr_sectors: None,
        ebr_last_chs: None,
        ..l
    }
}

// The logical partition of a slot, the first one with its EBR at x.
pub fn placed_slot(b: &[u8], x: u32, i: usize) -> LogicalPartition
    requires { Passed b.now × (i < (table_in b.now).count) }
    ensures { result ≡ get_or (first_at_start x (logicals (table_in b.now))) i no_logical }
{
    let l = block_read::fields::slot(b, i);
    if i == 0 {
        return at_start(x, l);
    }
    l
}

// Where the EBR of one goes.
pub fn ebr_place(b: &[u8], x: u32, i: usize) -> u32
    requires { Passed b.now × (i < (table_in b.now).count) }
    ensures { result ≡ at (get_or (as_written_in (table_in b.now) x) i no_logical) }
{
    if i == 0 {
        return x;
    }
    block_read::fields::ebr_lba(b, i)
}
