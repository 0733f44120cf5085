// Sizes, over the free runs of a table: rules Q10 to Q14.
ghost use Rattle.std.specs.Prelude.{◌≡◌, ◌≤◌, ◌<◌, IfOk};
ghost use Rattle.base.specs.Said.{answered};
ghost use Rattle.table_free.specs.Free.{runs_in, free_said, most_runs};
ghost use Rattle.table_place.specs.Place.{largest, size_by, maximum_size, length_at, grown, maximum_for};

use base::Refusal;
use record_entry::MBRPartitionEntry;
use table::MBR;
use table_free::Runs;
use table_free::search::find_free_sectors;

// The largest length in whole alignments.
#[tactic(auto, using(crate::proofs::Laws::steps))]
fn largest_in(x: Runs, align: u32) -> u32
    requires { (x.count ≤ most_runs) × (0 < align) }
    ensures { result ≡ largest align (runs_in x) }
{
    let mut most = 0;
    for r in &x.at[..x.count] {
        most = u32::max(most, r.length / align * align);
    }
    most
}

// The largest length in whole alignments: the search's refusal, 16 if there is no run.
pub fn size_by(found: Result<Runs, Refusal>, align: u32) -> Result<u32, Refusal>
    requires { IfOk found (λ x. (x.count ≤ most_runs) × (0 < align)) }
    ensures { answered result ≡ size_by align (free_said found) }
{
    let x = found?;
    if x.count == 0 {
        return Err(Refusal::NoSpaceLeft);
    }
    Ok(largest_in(x, align))
}

pub fn get_maximum_partition_size(t: MBR) -> Result<u32, Refusal>
    ensures { answered result ≡ maximum_size t }
{
    size_by(find_free_sectors(t), t.align)
}

// The length of the first run that starts at p; 0 if there is none.
#[tactic(auto, using(crate::proofs::Laws::steps))]
fn length_at(x: Runs, p: u32) -> u32
    requires { x.count ≤ most_runs }
    ensures { result ≡ length_at p (runs_in x) }
{
    for r in &x.at[..x.count] {
        if r.start == p {
            return r.length;
        }
    }
    0
}

// The size to which a partition can grow: 7.
#[tactic(auto, using(crate::proofs::Laws::growing))]
pub fn grown(e: MBRPartitionEntry, x: Runs) -> Result<u32, Refusal>
    requires { x.count ≤ most_runs }
    ensures { answered result ≡ grown e (runs_in x) }
{
    let sectors = e.sectors;
    let start = e.starting_lba;
    if x.count == 0 {
        return Ok(sectors);
    }
    if 0xFFFFFFFF - start < sectors {
        return Err(Refusal::Arithmetic);
    }
    let more = length_at(x, start + sectors);
    if 0xFFFFFFFF - sectors < more {
        return Err(Refusal::Arithmetic);
    }
    Ok(sectors + more)
}

// The size to which the partition of a number can grow: the search's refusals, then 15 and 7.
pub fn get_maximum_partition_size_for(t: MBR, i: usize) -> Result<u32, Refusal>
    ensures { answered result ≡ maximum_for t i }
{
    let x = find_free_sectors(t)?;
    let Some(e) = table_lookup::get(t, i)? else {
        return Err(Refusal::PartitionNotFound);
    };
    grown(e, x)
}
