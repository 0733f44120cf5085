// The partition table by value: `MBR`, `LogicalPartition`, the capacities.
// Scope: Ground covered (how many logical partitions at most); relative and absolute LBAs kept apart. Rules: G, A.
// For callers: `MBR` with `DEFAULT_ALIGN`, `MAX_ALIGN`; `LogicalPartition::empty`; `DiskLba`, `LinkLba`; `LOGICALS`.
#![tactic(auto)]

ghost use Rattle.std.specs.Prelude.{◌≡◌};
ghost use Rattle.table.specs.Table.{default_align, greatest_align, empty_slot};

use record_chs::CHS;
use record_ebr::Kept;
use record_entry::MBRPartitionEntry;
use record_mbr::MBRHeader;

// The most logical partitions of a table.
pub const LOGICALS: usize = 24;

// A place that a link gives, counted from the extended partition's start.
#[derive(Clone, Copy)]
pub struct LinkLba(pub u32);

// A place on the disk.
#[derive(Clone, Copy)]
pub struct DiskLba(pub u32);

#[derive(Clone, Copy)]
pub struct LogicalPartition {
    pub partition: MBRPartitionEntry,
    pub absolute_ebr_lba: DiskLba,
    pub ebr_sectors: Option<u32>,
    pub ebr_first_chs: CHS,
    pub ebr_last_chs: Option<CHS>,
    pub kept: Kept,
}

#[derive(Clone, Copy)]
pub struct MBR {
    pub sector_size: u32,
    pub header: MBRHeader,
    // A count beside an array, and no vector: the table has a fixed size and is copied whole, as its block in C is.
    pub logical_partitions: [LogicalPartition; LOGICALS],
    pub count: usize,
    pub align: u32,
    pub cylinders: u16,
    pub heads: u8,
    pub sectors: u8,
    pub disk_size: u32,
}

impl LogicalPartition {
    // What an unused slot of a table that is made holds.
    pub fn empty() -> LogicalPartition
        ensures { result ≡ empty_slot }
    {
        let none = MBRPartitionEntry::empty();
        let first = CHS::empty();
        let kept = Kept::empty();
        LogicalPartition {
            partition: none,
            absolute_ebr_lba: DiskLba(0),
            ebr_sectors: None,
            ebr_first_chs: first,
            ebr_last_chs: None,
            kept: kept,
        }
    }
}

impl MBR {
    pub const DEFAULT_ALIGN: u32 = 2048;

    pub const MAX_ALIGN: u32 = 16384;

    // Default and greatest alignment as numbers.
    pub fn default_align() -> u32
        ensures { result ≡ default_align }
    {
        MBR::DEFAULT_ALIGN
    }

    pub fn max_align() -> u32
        ensures { result ≡ greatest_align }
    {
        MBR::MAX_ALIGN
    }
}
