// Free runs of a table, area by area: the crate's answer, and no truth about what is free.
ghost use Rattle.std.specs.Prelude.{◌≡◌, [], ◌∷◌, ◌+◌, ◌≤◌, ◌<◌, length, IfOk};
ghost use Rattle.table.specs.Table.{most};
ghost use Rattle.table_free.specs.Sort.{sort};
ghost use Rattle.table_free.specs.Free.{primary_zones, logical_zones, joined, free, run_list, runs_in, runs_among, points_in, points_said, positions, most_runs, Told, most_points, most_primary_points};

use crate::{Points, Runs};
use base::Refusal;
use record_entry::MBRPartitionEntry;
use table::{LOGICALS, LogicalPartition, MBR};

// The runs of x, and the free ones of an area: 7.
pub fn search_area(p: Points, align: u32, x: Runs) -> Result<Runs, Refusal>
    requires { (0 < align) × ((x ≡ run_list (runs_in x)) × ((p.count ≤ most_points) × (x.count + x.count + p.count ≤ most_runs + most_runs))) }
    ensures said { Told result (joined (runs_in x) (runs_among align (sort (points_in p)))) }
    ensures few { IfOk result (λ r. r.count + r.count ≤ x.count + x.count + p.count) }
{
    let n = p.count;
    let mut at = p.at;
    crate::ascending::sort(&mut at[..n]);
    crate::gaps::collect(&at[..n], align, x)
}

// The positions of the primary partitions: 7.
pub fn primary_points(entries: [MBRPartitionEntry; 4], disk: u32) -> Result<Points, Refusal>
    ensures said { points_said result ≡ positions 0 disk (primary_zones entries) }
    ensures few { IfOk result (λ p. p.count ≤ most_primary_points) }
{
    let mut p = Points::from(0);
    for e in &entries {
        p.add(0, *e)?;
    }
    Points::to(Ok(p), crate::wide(disk))
}

// The positions of the area of an extended entry: 7.
fn extended_points(e: MBRPartitionEntry, logicals: &[LogicalPartition]) -> Result<Points, Refusal>
    requires { length logicals.now ≤ most }
    ensures said { points_said result ≡ positions e.starting_lba (e.starting_lba + e.sectors) (logical_zones logicals.now) }
    ensures few { IfOk result (λ p. p.count ≤ most_points) }
{
    let mut p = Points::from(e.starting_lba);
    for l in logicals {
        p.add(l.absolute_ebr_lba.0, l.partition)?;
    }
    Points::to(Ok(p), crate::wide(e.starting_lba) + crate::wide(e.sectors))
}

// Free runs of a table, as the crate finds them: rules G5 and F2 to F25.
pub fn find_free_sectors(t: MBR) -> Result<Runs, Refusal>
    ensures said { Told result (free t) }
    ensures few { IfOk result (λ r. r.count ≤ most_runs) }
{
    let count = t.count;
    if LOGICALS < count {
        return Err(Refusal::TooManyLogicals);
    }
    let align = t.align;
    if align == 0 {
        return Err(Refusal::Arithmetic);
    }
    let h = t.header;
    let entries = [h.partition_1, h.partition_2, h.partition_3, h.partition_4];
    let outer = primary_points(entries, t.disk_size)?;
    let runs = search_area(outer, align, Runs::new())?;
    let Some(e) = h.get_extended_partition() else {
        return Ok(runs);
    };
    let inner = extended_points(e, &t.logical_partitions[..count])?;
    search_area(inner, align, runs)
}
