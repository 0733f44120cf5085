// One EBR, or zeros in its place, as a store in lent bytes; a logical partition in the first place. Internal.
ghost use Rattle.std.specs.Prelude.{◌≡◌, ◌+◌, ◌≤◌, length};
ghost use Rattle.base.specs.Put.{put};
ghost use Rattle.careful_stores.specs.Stored.{store_bytes, wipe, moved, store_length};
ghost use Rattle.careful_stores.specs.Linked.{linked_store};

use chain::links::ebr_with;
use record_entry::MBRPartitionEntry;
use table::LogicalPartition;

// The EBR of a logical partition with a link and its own mark, as a store from index `at` on.
pub fn put_ebr(out: &mut [u8], at: usize, l: LogicalPartition, link: MBRPartitionEntry)
    requires { at + store_length ≤ length out.old }
    ensures { (out.new ≡ put out.old at (store_bytes (linked_store l link))) × (length (store_bytes (linked_store l link)) ≡ store_length) }
{
    base::put32(out, at, l.absolute_ebr_lba.0);
    record_ebr::writer::write_at(out, at + 4, ebr_with(l, link), l.kept.mark);
}

// 512 zeros, as a store at the start of lent bytes.
pub fn put_wipe(out: &mut [u8], e: MBRPartitionEntry)
    requires { store_length ≤ length out.old }
    ensures { out.new ≡ put out.old 0 (store_bytes (wipe e)) }
{
    base::put32(out, 0, e.starting_lba);
    base::copy_in(out, 4, &[0u8; 512]);
}

// The logical partition in the first place.
#[tactic(auto, unfolding(crate::specs::Stored::moved))]
pub fn move_first(e: MBRPartitionEntry, l: LogicalPartition) -> LogicalPartition
    ensures { result ≡ moved e l }
{
    LogicalPartition {
        absolute_ebr_lba: chain::area_of(e),
        ebr_sectors: None,
        ebr_first_chs: e.first_chs,
        ebr_last_chs: None,
        ..l
    }
}
