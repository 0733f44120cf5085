// Places for a partition, over the free runs of a table: rules Q1 and Q3.
ghost use Rattle.std.specs.Prelude.{◌≡◌, ◌≤◌, IfOk};
ghost use Rattle.base.specs.Said.{answered};
ghost use Rattle.table_free.specs.Free.{free_said, most_runs, Usable};
ghost use Rattle.table_place.specs.Place.{start_by, last_by, first_place, last_place, optimal_place};

use crate::Rule;
use base::Refusal;
use table::MBR;
use table_free::Runs;
use table_free::search::find_free_sectors;

// The start of the run that the rule takes: the search's refusal.
pub fn start_by(found: Result<Runs, Refusal>, rule: Rule, size: u32) -> Result<Option<u32>, Refusal>
    requires { IfOk found (λ x. x.count ≤ most_runs) }
    ensures { answered result ≡ start_by rule size (free_said found) }
{
    let Some(r) = crate::spot_in(found?, rule, size) else {
        return Ok(None);
    };
    Ok(Some(r.start))
}

// As far right as possible in the last run that is long enough: the search's refusal.
pub fn last_by(found: Result<Runs, Refusal>, align: u32, size: u32) -> Result<Option<u32>, Refusal>
    requires { IfOk found (λ x. x.count ≤ most_runs) × Usable align (free_said found) }
    ensures { answered result ≡ last_by align size (free_said found) }
{
    let Some(r) = crate::spot_in(found?, Rule::Last, size) else {
        return Ok(None);
    };
    Ok(Some((r.start + r.length - size) / align * align))
}

pub fn find_first_place(t: MBR, size: u32) -> Result<Option<u32>, Refusal>
    ensures { answered result ≡ first_place t size }
{
    start_by(find_free_sectors(t), Rule::First, size)
}

pub fn find_optimal_place(t: MBR, size: u32) -> Result<Option<u32>, Refusal>
    ensures { answered result ≡ optimal_place t size }
{
    start_by(find_free_sectors(t), Rule::Smallest, size)
}

pub fn find_last_place(t: MBR, size: u32) -> Result<Option<u32>, Refusal>
    ensures { answered result ≡ last_place t size }
{
    last_by(find_free_sectors(t), t.align, size)
}
