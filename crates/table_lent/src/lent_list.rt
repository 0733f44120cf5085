// Free runs into a list that the caller lends.
ghost use Rattle.std.specs.Prelude.{◌≡◌, length};
ghost use Rattle.base.specs.Said.{answered};
ghost use Rattle.table_lent.specs.Runs.{free_count, free_list};

use base::Refusal;
use table::MBR;
use table_free::{RUNS, Run};

// Free runs of a table, as the crate finds them, into the lent list: the runs found stand first, the rest is as it was. Rules F26 and F28.
pub fn free_into(t: MBR, runs: &mut [Run]) -> Result<usize, Refusal>
    ensures { (answered result ≡ free_count t (length runs.old)) × (runs.new ≡ free_list t runs.old) }
{
    let found = table_free::search::find_free_sectors(t)?;
    if runs.len() < RUNS {
        return Err(Refusal::OutputTooShort);
    }
    let n = found.count;
    runs[..n].copy_from_slice(&found.at[..n]);
    Ok(n)
}
