// Where a new partition goes among those of a table: its place in the order, and what stands before and behind it. Internal.
ghost use Rattle.std.specs.Prelude.{◌≡◌, ◌≤◌};
ghost use Rattle.table.specs.Table.{logicals, most};
ghost use Rattle.careful_stores.specs.Order.{order_at, between};

use careful_stores::push_writer::Between;
use chain::links::link_to;
use record_entry::MBRPartitionEntry;
use sound::in_turn::end_of;
use table::MBR;

// How many stand before it: up to the last EBR at or below `place`, the first in any case.
#[tactic(auto, using(crate::proofs::Lists::order_begins, crate::proofs::Lists::order_goes_on, crate::proofs::Lists::order_stops, crate::proofs::Lists::order_ends))]
pub fn order_at(t: MBR, place: u32) -> usize
    requires { t.count ≤ most }
    ensures { result ≡ order_at place (logicals t) }
{
    let listed = &t.logical_partitions[..t.count];
    // By index: an invariant has no index of a loop over `enumerate().skip(1)`.
    for i in 1..listed.len() {
        if place < listed[i].absolute_ebr_lba.0 {
            return i;
        }
    }
    listed.len()
}

// What a new partition at `place` stands between.
pub fn between_at(t: MBR, e: MBRPartitionEntry, place: u32) -> Between
    requires { t.count ≤ most }
    ensures { result ≡ between e place (logicals t) }
{
    let k = order_at(t, place);
    let listed = &t.logical_partitions[..t.count];
    let earlier = listed[..k].last().copied();
    match listed.get(k) {
        None => Between {
            order: k,
            earlier,
            bound: end_of(e),
            link: MBRPartitionEntry::empty(),
        },
        Some(later) => Between {
            order: k,
            earlier,
            bound: later.absolute_ebr_lba.0 as u64,
            link: link_to(e, *later),
        },
    }
}
