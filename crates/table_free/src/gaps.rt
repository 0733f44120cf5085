// The free runs between ascending positions.
ghost use Rattle.std.specs.Prelude.{◌≡◌, [], ◌∷◌, ◌+◌, ◌≤◌, ◌<◌, length, IfOk};
ghost use Rattle.table_free.specs.Free.{runs_among, joined, run_list, runs_in, gap_said, Told, most_runs};

use crate::{Run, Runs};
use base::Refusal;

// What lies between two positions a and b, rounded up to the alignment.
#[tactic(auto, using(crate::proofs::Laws::gap_steps))]
fn gap_of(a: u32, b: u32, align: u32) -> Result<Option<Run>, Refusal>
    requires { 0 < align }
    ensures { gap_said result ≡ runs_among align (a ∷ b ∷ []) }
{
    if b <= a {
        return Err(Refusal::Arithmetic);
    }
    if b - a == 1 {
        return Ok(None);
    }
    let step = align - a % align;
    if 0xFFFFFFFF - a < step {
        return Err(Refusal::Arithmetic);
    }
    let start = a + step;
    if b <= start {
        return Ok(None);
    }
    Ok(Some(Run {
        start: start,
        length: b - start,
    }))
}

// The runs of x, and the free ones between ascending positions: 7.
pub fn collect(ps: &[u32], align: u32, x: Runs) -> Result<Runs, Refusal>
    requires { (0 < align) × ((x ≡ run_list (runs_in x)) × (x.count + x.count + length ps.now ≤ most_runs + most_runs)) }
    ensures said { Told result (joined (runs_in x) (runs_among align ps.now)) }
    ensures few { IfOk result (λ r. r.count + r.count ≤ x.count + x.count + length ps.now) }
{
    let mut runs = x;
    for pair in ps.chunks_exact(2) {
        let Some(r) = gap_of(pair[0], pair[1], align)? else {
            continue;
        };
        let n = runs.count;
        runs.at[n] = r;
        runs.count = n + 1;
    }
    Ok(runs)
}
