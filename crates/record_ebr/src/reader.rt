// An EBR record, read.
ghost use Rattle.std.specs.Prelude.{◌≡◌};
ghost use Rattle.base.specs.Said.{answered};
ghost use Rattle.base.specs.Checks.{answer};
ghost use Rattle.record_ebr.specs.Ebr.{ebr_of, ebr_read_checks};

use crate::EBRHeader;
use base::Refusal;

// Reads a lent record: 1, 3, 4.
pub fn read(r: &[u8]) -> Result<EBRHeader, Refusal>
    ensures { answered result ≡ answer (ebr_read_checks r.now) (ebr_of r.now) }
{
    if r.len() != 512 {
        return Err(Refusal::BadExtract);
    }
    let entries = crate::open(r)?;
    Ok(EBRHeader {
        kept: crate::kept_of(r),
        partition_1: entries.partition_1,
        partition_2: entries.partition_2,
    })
}
