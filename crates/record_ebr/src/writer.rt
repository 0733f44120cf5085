// An EBR record, written.
ghost use Rattle.std.specs.Prelude.{◌≡◌, ◌+◌, ◌≤◌, length};
ghost use Rattle.base.specs.Put.{put};
ghost use Rattle.base.specs.Said.{refusal};
ghost use Rattle.base.specs.Checks.{checked, first-fail};
ghost use Rattle.record_ebr.specs.Ebr.{no_mark, ebr_bytes, ebr_write_checks};

use crate::{EBRHeader, MARK, MARK_AT};
use base::Refusal;

// The 512 bytes of an EBR, with this mark, from index `at` on.
pub fn write_at(d: &mut [u8], at: usize, h: EBRHeader, mark: [u8; MARK])
    requires { at + 512 ≤ length d.old }
    ensures { d.new ≡ put d.old at (ebr_bytes mark h) }
{
    base::copy_in(d, at, &h.kept.bootstrap_code);
    record_entry::writer::write(d, at + 446, h.partition_1);
    record_entry::writer::write(d, at + 462, h.partition_2);
    base::copy_in(d, at + MARK_AT, &mark);
    base::copy_in(d, at + 510, &base::SIGNATURE);
}

// Writes the record, without its mark, to the start of lent bytes: 4, 19.
pub fn write(h: EBRHeader, d: &mut [u8]) -> Result<(), Refusal>
    ensures result_value { refusal result ≡ first-fail (ebr_write_checks h (length d.old)) }
    ensures d_after { d.new ≡ checked (ebr_write_checks h (length d.old)) (λ _. d.old) (put d.old 0 (ebr_bytes no_mark h)) }
{
    if !h.partition_1.check() {
        return Err(Refusal::InvalidBootFlag);
    }
    if !h.partition_2.check() {
        return Err(Refusal::InvalidBootFlag);
    }
    if d.len() < 512 {
        return Err(Refusal::OutputTooShort);
    }
    write_at(d, 0, h, [0u8; MARK]);
    Ok(())
}
