// An entry put into lent bytes.
ghost use Rattle.std.specs.Prelude.{◌≡◌, length};
ghost use Rattle.std.specs.Prelude.{Some};
ghost use Rattle.base.specs.Said.{gives, refusal};
ghost use Rattle.abi_word.specs.Packed.{status};
ghost use Rattle.block_lookup.specs.Entry.{entry_status, entry_after};

use base::Refusal;
use block::ENTRY;
use record_entry::MBRPartitionEntry;

// An entry at the start of lent bytes: 19.
pub fn put_found(e: MBRPartitionEntry, out: &mut [u8]) -> Result<(), Refusal>
    ensures value { status (refusal result) ≡ entry_status (length out.old) (gives (Some e)) }
    ensures out_after { out.new ≡ entry_after out.old (gives (Some e)) }
{
    if out.len() < ENTRY {
        return Err(Refusal::OutputTooShort);
    }
    block_slot::slot_out::put_entry(out, 0, e);
    Ok(())
}
