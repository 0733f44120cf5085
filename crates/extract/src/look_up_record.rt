// A record of an extract looked up by its LBA, whatever the extract.
ghost use Rattle.std.specs.Prelude.{◌≡◌};
ghost use Rattle.base.specs.Said.{refusal};
ghost use Rattle.extract.specs.Extract.{looked_up};
ghost use Rattle.extract.specs.Answers.{look_says};

use base::Refusal;

// The record at an LBA, as a part of the extract; empty if it is absent or refused.
pub fn look_up<'a>(x: &'a [u8], lba: u32) -> &'a [u8]
    ensures { result.now ≡ looked_up x.now lba }
{
    let Ok(e) = crate::check(x) else {
        return &x[0..0];
    };
    if lba < e.disk_size {
        crate::record_of(x, e.count, lba)
    } else {
        &x[0..0]
    }
}

// What looking up says beside the record: nothing (0), the extract is bad (1), or the LBA is at or past the end (2).
pub fn look_up_answer(x: &[u8], lba: u32) -> Result<(), Refusal>
    ensures { refusal result ≡ look_says x.now lba }
{
    let e = crate::check(x)?;
    if e.disk_size <= lba {
        return Err(Refusal::PastDisk);
    }
    Ok(())
}
