// The addresses of a logical partition, for programs in C and Rust: the partition is a block's slot, and its tag.
ghost use Rattle.std.specs.Prelude.{◌≡◌, length};
ghost use Rattle.base.specs.Said.{answered, failure};
ghost use Rattle.table_push.specs.Answers.{geometry_in};
ghost use Rattle.abi_word.specs.Packed.{status};
ghost use Rattle.abi_address.specs.Slot.{slot_says, slot_after};

use base::Refusal;
use block::SLOT;
use table::LogicalPartition;

// The bytes of a slot and its tag.
const LONE_SLOT: usize = SLOT + 1;

// The partition in a lent slot with other four addresses: 101, 102, 7, 13, 14.
fn updated(slot: &[u8], cylinders: u16, heads: u8, sectors: u8) -> Result<LogicalPartition, Refusal>
    ensures { answered result ≡ slot_says (geometry_in cylinders heads sectors) slot.now }
{
    if slot.len() != LONE_SLOT {
        return Err(Refusal::BlockLength);
    }
    let tag = slot[SLOT];
    if 3 < tag {
        return Err(Refusal::BlockTag);
    }
    let l = block_read::slot_in::get_slot(slot, tag);
    table_address::four::update_chs(l, cylinders, heads, sectors)
}

// Alters the four addresses of the partition in a lent slot: 101, 102, 7, 13, 14.
pub fn cv_update_chs(slot: &mut [u8], cylinders: u16, heads: u8, sectors: u8) -> u8
    ensures said { result ≡ status (failure (slot_says (geometry_in cylinders heads sectors) slot.old)) }
    ensures left { slot.new ≡ slot_after slot.old (slot_says (geometry_in cylinders heads sectors) slot.old) }
{
    match updated(slot, cylinders, heads, sectors) {
        Err(k) => k.number(),
        Ok(l) => {
            block_slot::slot_out::put_slot(slot, 0, l);
            base::put8(slot, SLOT, block_slot::slot_put::tag_of(l));
            0
        }
    }
}
