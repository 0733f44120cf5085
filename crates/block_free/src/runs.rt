// The free runs of a block, into lent bytes.
ghost use Rattle.std.specs.Prelude.{◌≡◌, length};
ghost use Rattle.base.specs.Said.{answered};
ghost use Rattle.block.specs.Blocks.{block_says};
ghost use Rattle.block_free.specs.Free.{runs_for, how_many, runs_after};

use base::Refusal;

// Room for the most runs, of 8 bytes each.
pub const RUN_BYTES: usize = 8 * table_free::RUNS;

// Puts the free runs of the table in a block into lent bytes, and answers how many there are: the block's refusals, 7, 19.
pub fn free_on(b: &[u8], out: &mut [u8]) -> Result<u32, Refusal>
    ensures value { answered result ≡ how_many (runs_for (block_says b.now) (length out.old)) }
    ensures out_after { out.new ≡ runs_after out.old (runs_for (block_says b.now) (length out.old)) }
{
    block_read::checks::check(b)?;
    let runs = crate::search::free_of(b)?;
    if out.len() < RUN_BYTES {
        return Err(Refusal::OutputTooShort);
    }
    crate::run_bytes::put_runs(out, runs);
    Ok(runs.count as u32)
}
