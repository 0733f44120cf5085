// A record laid over an extract, into a second buffer.
ghost use Rattle.std.specs.Prelude.{◌≡◌, length};
ghost use Rattle.base.specs.Said.{answered};
ghost use Rattle.extract_lay.specs.Answers.{lay_says, lay_leaves};

use base::Refusal;

// Lays a record over an extract: the new extract at the start of the output, all else of it as before; all as before if refused.
pub fn lay_over(x: &[u8], lba: u32, sector: &[u8], out: &mut [u8]) -> Result<usize, Refusal>
    ensures said { answered result ≡ lay_says x.now lba sector.now (length out.old) }
    ensures left { out.new ≡ lay_leaves x.now lba sector.now out.old }
{
    let e = extract::check(x)?;
    if sector.len() != 512 {
        return Err(Refusal::BadExtract);
    }
    if e.disk_size <= lba {
        return Err(Refusal::PastDisk);
    }
    let (from, to) = match extract::seek(x, e.count, lba) {
        Ok(i) => (i, i + 1),
        Err(i) => (i, i),
    };
    crate::replace::lay_at(out, x, e, from, to, lba, sector)
}
