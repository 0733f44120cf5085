// Free runs of a block, where it lies. Internal: the block has passed its checks.
ghost use Rattle.std.specs.Prelude.{◌≡◌, ◌+◌, ◌≤◌, length, IfOk};
ghost use Rattle.record_mbr.specs.Mbr.{primaries};
ghost use Rattle.table.specs.Table.{logicals, most};
ghost use Rattle.block.specs.Block.{table_in, block_length, Passed};
ghost use Rattle.table_free.specs.Free.{primary_zones, logical_zones, free, points_said, positions, most_runs, Told, most_points, most_primary_points};

use base::Refusal;
use record_entry::MBRPartitionEntry;
use table_free::search::search_area;
use table_free::{Points, Runs};

// The positions of the primary partitions: 7.
fn primary_points(b: &[u8]) -> Result<Points, Refusal>
    requires { length b.now ≡ block_length }
    ensures said { points_said result ≡ positions 0 (table_in b.now).disk_size (primary_zones (primaries (table_in b.now).header)) }
    ensures few { IfOk result (λ p. p.count ≤ most_primary_points) }
{
    let one = block_read::fields::primary(b, 0);
    let two = block_read::fields::primary(b, 1);
    let three = block_read::fields::primary(b, 2);
    let four = block_read::fields::primary(b, 3);
    table_free::search::primary_points([one, two, three, four], base::get32(b, 4))
}

// The positions of the area of the extended entry: 7.
fn extended_points(b: &[u8], e: MBRPartitionEntry) -> Result<Points, Refusal>
    requires { Passed b.now }
    ensures said { points_said result ≡ positions e.starting_lba (e.starting_lba + e.sectors) (logical_zones (logicals (table_in b.now))) }
    ensures few { IfOk result (λ p. p.count ≤ most_points) }
{
    let n = block_read::fields::count(b);
    let mut p = Points::from(e.starting_lba);
    // By number: the partitions stand in the bytes of the block and not in a slice.
    for i in 0..n {
        let place = block_read::fields::ebr_lba(b, i);
        let l = block_read::fields::logical(b, i);
        p.add(place, l)?;
    }
    Points::to(
        Ok(p),
        table_free::wide(e.starting_lba) + table_free::wide(e.sectors),
    )
}

// Free runs of the table in a block, as the crate finds them.
pub fn free_of(b: &[u8]) -> Result<Runs, Refusal>
    requires { Passed b.now }
    ensures said { Told result (free (table_in b.now)) }
    ensures few { IfOk result (λ r. r.count ≤ most_runs) }
{
    let align = base::get32(b, 8);
    if align == 0 {
        return Err(Refusal::Arithmetic);
    }
    let outer = primary_points(b)?;
    let runs = search_area(outer, align, Runs::new())?;
    let Some(e) = block_read::fields::extended(b) else {
        return Ok(runs);
    };
    let inner = extended_points(b, e)?;
    search_area(inner, align, runs)
}
