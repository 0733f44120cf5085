// A careful removal from a table that was read: its refusals, else its store. Internal.
ghost use Rattle.std.specs.Prelude.{◌≡◌, ◌≤◌, length};
ghost use Rattle.std.specs.Prelude.{unwrap_or};
ghost use Rattle.record_entry.specs.Entry.{no_entry};
ghost use Rattle.record_mbr.specs.Mbr.{primaries, extended_of};
ghost use Rattle.table.specs.Table.{most};
ghost use Rattle.sound.specs.Sound.{contents_of};
ghost use Rattle.careful.specs.Careful.{remove_refusals, remove_change};
ghost use Rattle.careful_stores.specs.Behind.{Tells};

use crate::remove_writer::put_removal;
use base::Refusal;
use careful_stores::push_stores::STORES;
use record_entry::MBRPartitionEntry;
use record_mbr::MBRHeader;
use sound_test::few::is_sound;
use table::MBR;
use table_lookup::Kind;

// The extended entry.
fn area_of(h: MBRHeader) -> MBRPartitionEntry
    ensures { result ≡ unwrap_or (extended_of (primaries h)) no_entry }
{
    h.get_extended_partition()
        .unwrap_or(MBRPartitionEntry::empty())
}

// A careful removal from a table that was read: 20, 17, 19.
#[tactic(auto, unfolding(careful::specs::Careful::remove_refusals))]
pub fn remove_on(t: MBR, number: usize, out: &mut [u8]) -> Result<usize, Refusal>
    requires { t.count ≤ most }
    ensures { Tells result out.old out.new (remove_refusals (length out.old) number (contents_of t)) (remove_change number (contents_of t)).stores }
{
    if !is_sound(t) {
        return Err(Refusal::NotSound);
    }
    let Kind::Logical(k) = table_lookup::kind_of(number) else {
        return Err(Refusal::NoSuchLogical);
    };
    if t.count <= k {
        return Err(Refusal::NoSuchLogical);
    }
    if out.len() < STORES {
        return Err(Refusal::OutputTooShort);
    }
    put_removal(out, t, area_of(t.header), k);
    Ok(1)
}
