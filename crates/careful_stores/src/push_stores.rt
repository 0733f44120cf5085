// The refusals of a careful push that its place decides, else its stores.
ghost use Rattle.std.specs.Prelude.{◌≡◌, length};
ghost use Rattle.careful_stores.specs.Behind.{Tells, stores_between};
ghost use Rattle.careful_stores.specs.Space.{end_behind, space_between};

use crate::push_writer::{Between, put_push};
use base::Refusal;
use record_entry::MBRPartitionEntry;
use sound::by_itself::ends_at;
use sound::in_turn::end_of;
use table::LogicalPartition;

// The bytes that two stores take.
pub const STORES: usize = 2 * crate::STORE;

// Where the one before ends; 0 if there is none.
fn end_behind(earlier: Option<LogicalPartition>) -> u64
    ensures { result ≡ end_behind earlier }
{
    earlier.map_or(0, ends_at)
}

// 12, 21, 19 of a new partition that stands there, else its stores.
pub fn push_new(
    e: MBRPartitionEntry,
    b: Between,
    new: LogicalPartition,
    out: &mut [u8],
) -> Result<usize, Refusal>
    ensures { Tells result out.old out.new (space_between e b new (length out.old)) (stores_between e b new) }
{
    let place = new.absolute_ebr_lba.0 as u64;
    let end = ends_at(new);
    if end_of(e) < end {
        return Err(Refusal::EBREndsAfterExtendedPartition);
    }
    if place < end_behind(b.earlier) {
        return Err(Refusal::NoGap);
    }
    if b.bound < end {
        return Err(Refusal::NoGap);
    }
    if out.len() < STORES {
        return Err(Refusal::OutputTooShort);
    }
    Ok(put_push(out, e, b, new))
}
