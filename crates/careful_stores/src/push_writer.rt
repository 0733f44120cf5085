// The stores of a careful push in lent bytes. Internal.
ghost use Rattle.std.specs.Prelude.{◌≡◌, ◌≤◌, length};
ghost use Rattle.base.specs.Put.{put};
ghost use Rattle.careful_stores.specs.Stored.{stores_bytes, room_needed};
ghost use Rattle.careful_stores.specs.Behind.{stores_between};

use crate::ebr_store::{move_first, put_ebr};
use chain::links::link_to;
use record_entry::MBRPartitionEntry;
use table::LogicalPartition;

// What a new partition stands between: how many are before it, the last of them if there is one, where it must end, and the
// link to what follows it.
#[derive(Clone, Copy)]
pub struct Between {
    pub order: usize,
    pub earlier: Option<LogicalPartition>,
    pub bound: u64,
    pub link: MBRPartitionEntry,
}

// The stores of a new partition that stands there, and how many they are: the new EBR with its link, then the EBR before it with a link to the new one.
pub fn put_push(out: &mut [u8], e: MBRPartitionEntry, b: Between, new: LogicalPartition) -> usize
    requires { room_needed ≤ length out.old }
    ensures result_value { result ≡ length (stores_between e b new) }
    ensures out_after { out.new ≡ put out.old 0 (stores_bytes (stores_between e b new)) }
{
    match b.earlier {
        None => {
            put_ebr(out, 0, move_first(e, new), MBRPartitionEntry::empty());
            1
        }
        Some(earlier) => {
            put_ebr(out, 0, new, b.link);
            put_ebr(out, crate::STORE, earlier, link_to(e, new));
            2
        }
    }
}
