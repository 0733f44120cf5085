// An MBR record, read.
ghost use Rattle.std.specs.Prelude.{◌≡◌};
ghost use Rattle.base.specs.Said.{answered};
ghost use Rattle.base.specs.Checks.{answer};
ghost use Rattle.record_mbr.specs.Mbr.{mbr_of, mbr_read_checks};

use crate::MBRHeader;
use base::Refusal;

// Reads a lent record: 1, 3, 4.
pub fn read(r: &[u8]) -> Result<MBRHeader, Refusal>
    ensures { answered result ≡ answer (mbr_read_checks r.now) (mbr_of r.now) }
{
    if r.len() != 512 {
        return Err(Refusal::BadExtract);
    }
    let header = crate::fields_read::decode(r);
    header.check()?;
    Ok(header)
}
