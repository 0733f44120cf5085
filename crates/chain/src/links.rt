// The EBR of a logical partition, as it is written: its partition, and the link to what follows.
ghost use Rattle.std.specs.Prelude.{◌≡◌, Some};
ghost use Rattle.chain.specs.Facts.{leads};
ghost use Rattle.chain.specs.Links.{link_entry, ebr_with};

use record_chs::CHS;
use record_ebr::EBRHeader;
use record_entry::MBRPartitionEntry;
use table::LogicalPartition;

// The link to a logical partition: flag 00 and the extended entry's type.
pub fn link_to(e: MBRPartitionEntry, l: LogicalPartition) -> MBRPartitionEntry
    ensures { result ≡ link_entry e.sys (leads e.starting_lba (Some l)) }
{
    let link = crate::link_of(crate::area_of(e), l.absolute_ebr_lba);
    MBRPartitionEntry {
        boot: record_entry::BOOT_INACTIVE,
        first_chs: l.ebr_first_chs,
        sys: e.sys,
        last_chs: l.ebr_last_chs.unwrap_or(CHS::empty()),
        starting_lba: link.0,
        sectors: l.ebr_sectors.unwrap_or(0),
    }
}

// The EBR of a logical partition with a link entry; the partition's start counts from the EBR, and is 0 if it is before it.
pub fn ebr_with(l: LogicalPartition, link: MBRPartitionEntry) -> EBRHeader
    ensures { result ≡ ebr_with l link }
{
    let mut p = l.partition;
    p.starting_lba = p.starting_lba.saturating_sub(l.absolute_ebr_lba.0);
    EBRHeader {
        kept: l.kept,
        partition_1: p,
        partition_2: link,
    }
}
