// The store of a careful removal in lent bytes. Internal.
ghost use Rattle.std.specs.Prelude.{◌≡◌, ◌≤◌, ◌<◌, length};
ghost use Rattle.base.specs.Put.{put};
ghost use Rattle.table.specs.Table.{logicals, most};
ghost use Rattle.careful_stores.specs.Stored.{store_bytes, store_length};
ghost use Rattle.careful.specs.Stores.{remove_store};
ghost use Rattle.careful_stores.specs.Linked.{link_behind};
ghost use Rattle.careful_remove.specs.Place.{place_in};

use careful_stores::ebr_store::{move_first, put_ebr, put_wipe};
use chain::links::link_to;
use record_entry::MBRPartitionEntry;
use table::MBR;

// The link to the logical partition at place i; an ending one if there is none.
fn link_at(t: MBR, e: MBRPartitionEntry, i: usize) -> MBRPartitionEntry
    requires { t.count ≤ most }
    ensures { result ≡ link_behind e (place_in (logicals t) i) }
{
    match t.logical_partitions[..t.count].get(i) {
        None => MBRPartitionEntry::empty(),
        Some(l) => link_to(e, *l),
    }
}

// The store of a removal: the EBR before place i; for the first, X describes the second; for the only one, zeros at X.
pub fn put_removal(out: &mut [u8], t: MBR, e: MBRPartitionEntry, i: usize)
    requires { (i < t.count) × (t.count ≤ most) × (store_length ≤ length out.old) }
    ensures { out.new ≡ put out.old 0 (store_bytes (remove_store e (logicals t) i)) }
{
    if t.count == 1 {
        put_wipe(out, e);
    } else if i == 0 {
        put_ebr(
            out,
            0,
            move_first(e, t.logical_partitions[1]),
            link_at(t, e, 2),
        );
    } else {
        put_ebr(out, 0, t.logical_partitions[i - 1], link_at(t, e, i + 1));
    }
}
