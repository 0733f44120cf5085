// An MBR record, written.
ghost use Rattle.std.specs.Prelude.{◌≡◌, length};
ghost use Rattle.base.specs.Put.{put};
ghost use Rattle.base.specs.Said.{refusal};
ghost use Rattle.base.specs.Checks.{checked, first-fail};
ghost use Rattle.record_mbr.specs.Mbr.{mbr_bytes, mbr_write_checks};

use crate::MBRHeader;
use base::Refusal;

// Writes the record to the start of lent bytes: 3, 4, 19.
pub fn write(h: MBRHeader, d: &mut [u8]) -> Result<(), Refusal>
    ensures result_value { refusal result ≡ first-fail (mbr_write_checks h (length d.old)) }
    ensures d_after { d.new ≡ checked (mbr_write_checks h (length d.old)) (λ _. d.old) (put d.old 0 (mbr_bytes h)) }
{
    h.check()?;
    if d.len() < 512 {
        return Err(Refusal::OutputTooShort);
    }
    crate::fields_written::write_all(d, h);
    Ok(())
}
