// The rules of a sound table for an EBR in its turn and its link.
ghost use Rattle.std.specs.Prelude.{◌≡◌};
ghost use Rattle.record_entry.specs.Entry.{end_of};
ghost use Rattle.sound.specs.Walk.{coverb, linkb, turnb};

use crate::by_itself::ends_at;
use record_entry::MBRPartitionEntry;
use table::LogicalPartition;

// The sector behind an entry's last.
pub fn end_of(e: MBRPartitionEntry) -> u64
    ensures { result ≡ end_of e }
{
    e.starting_lba as u64 + e.sectors as u64
}

// A link of n sectors: at least 1, ends by the extended end, covers its partition.
#[tactic(auto, unfolding(crate::specs::Walk::coverb))]
fn good_cover(l: LogicalPartition, n: u32, hi: u64) -> bool
    ensures { result ≡ coverb hi l n }
{
    let end = l.absolute_ebr_lba.0 as u64 + n as u64;
    1 <= n && end <= hi && ends_at(l) <= end
}

// The link sectors are there and do so.
#[tactic(auto, unfolding(crate::specs::Walk::linkb))]
fn good_link(l: LogicalPartition, hi: u64) -> bool
    ensures { result ≡ linkb hi l }
{
    l.ebr_sectors.is_some_and(|n| good_cover(l, n, hi))
}

// The first EBR is at `from`; a later one is not before it, and has its link.
#[tactic(auto, unfolding(crate::specs::Walk::turnb))]
pub fn good_turn(l: LogicalPartition, first: bool, from: u64, hi: u64) -> bool
    ensures { result ≡ turnb hi first from l }
{
    let at = l.absolute_ebr_lba.0 as u64;
    if first {
        at == from
    } else {
        from <= at && good_link(l, hi)
    }
}
