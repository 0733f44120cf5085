// A record put in the place of others in an extract, into a second buffer. Internal.
ghost use Rattle.std.specs.Prelude.{◌≡◌, length};
ghost use Rattle.base.specs.Said.{answered};
ghost use Rattle.extract_lay.specs.Cut.{Laying};
ghost use Rattle.extract_lay.specs.Answers.{room_says, room_leaves};

use base::Refusal;
use extract::Extract;

// The record put where those from number p up to q are, if there is room.
pub fn lay_at(
    out: &mut [u8],
    x: &[u8],
    e: Extract,
    p: usize,
    q: usize,
    lba: u32,
    sector: &[u8],
) -> Result<usize, Refusal>
    requires { Laying x.now e p q lba sector.now }
    ensures said { answered result ≡ room_says x.now lba sector.now (length out.old) }
    ensures left { out.new ≡ room_leaves x.now lba sector.now out.old }
{
    let n = e.count;
    let m = p + 1 + (n - q);
    if extract::RECORDS < m {
        return Err(Refusal::TooManyRecords);
    }
    let total = 24 + m * 516;
    if out.len() < total {
        return Err(Refusal::OutputTooShort);
    }
    extract::records_out::put_extract(out, x, e, p, q, lba, sector);
    Ok(total)
}
