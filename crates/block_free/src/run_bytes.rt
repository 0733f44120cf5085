// Free runs into lent bytes.
ghost use Rattle.std.specs.Prelude.{◌≡◌, ◌+◌, ◌*◌, ◌≤◌, length};
ghost use Rattle.base.specs.Put.{put};
ghost use Rattle.table_free.specs.Free.{runs_in, most_runs};
ghost use Rattle.block_free.specs.Runs.{run_part, runs_part};
ghost use Rattle.block_free.specs.Free.{run_bytes};

use table_free::{Run, Runs};

pub fn put_run(out: &mut [u8], at: usize, r: Run)
    requires { at + 8 ≤ length out.old }
    ensures { out.new ≡ put out.old at (run_part r) }
{
    base::put32(out, at, r.start);
    base::put32(out, at + 4, r.length);
}

// The runs, one behind the other.
pub fn put_runs(out: &mut [u8], x: Runs)
    requires { (x.count ≤ most_runs) × (run_bytes ≤ length out.old) }
    ensures { out.new ≡ put out.old 0 (runs_part (runs_in x)) }
{
    for (i, r) in x.at[..x.count].iter().enumerate() {
        put_run(out, i * 8, *r);
    }
}
