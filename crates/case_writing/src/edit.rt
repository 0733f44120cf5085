// The table that a line hands in: what was read, with the line's six numbers and then its edits.
ghost use Rattle.std.specs.Prelude.{◌<◌};

use case_show::line::Line;
use record_entry::MBRPartitionEntry;
use record_mbr::MBRHeader;
use table::{DiskLba, LOGICALS, LogicalPartition, MBR};
use table_lookup::Kind;

// One field of an entry.
fn edit_entry(e: &mut MBRPartitionEntry, field: usize, v: u32) {
    match field {
        1 => e.boot = (v % 256) as u8,
        2 => e.sys = (v % 256) as u8,
        3 => e.starting_lba = v,
        _ => e.sectors = v,
    }
}

// One field of a header's entry.
fn edit_primary(h: &mut MBRHeader, number: usize, field: usize, v: u32) {
    match number {
        1 => edit_entry(&mut h.partition_1, field, v),
        2 => edit_entry(&mut h.partition_2, field, v),
        3 => edit_entry(&mut h.partition_3, field, v),
        _ => edit_entry(&mut h.partition_4, field, v),
    }
}

// One field of a logical partition: its EBR's place, its link sectors or that there are none, its last link CHS, none or the
// first; the others are its entry's.
fn edit_logical(l: &mut LogicalPartition, field: usize, v: u32) {
    match field {
        0..=4 => edit_entry(&mut l.partition, field, v),
        5 => l.absolute_ebr_lba = DiskLba(v),
        6 => l.ebr_sectors = Some(v),
        7 => l.ebr_sectors = None,
        8 => l.ebr_last_chs = None,
        _ => l.ebr_last_chs = Some(l.ebr_first_chs),
    }
}

// One edit, in the line's words after `k` spaces: a number of a partition (0 is the header's signature), a field and a value.
// Field 0 edits nothing.
fn edit(t: &mut MBR, l: Line<'_>, k: usize)
    requires { k < 100 }
{
    let field = l.number(k + 1);
    let v: u32 = l.number(k + 2);
    if field == 0 {
        return;
    }
    match table_lookup::kind_of(l.number(k)) {
        Kind::Nothing => t.header.boot_signature = [(v % 256) as u8, (v / 256 % 256) as u8],
        Kind::Primary(i) => edit_primary(&mut t.header, i, field, v),
        Kind::Logical(i) => {
            if i < LOGICALS {
                edit_logical(&mut t.logical_partitions[i], field, v);
            }
        }
    }
}

// The table with the four edits of a line; those that are missing are all zeros.
pub fn handed(l: Line<'_>, read: MBR) -> MBR {
    let mut t = case_show::given::table(l, read);
    for k in [8, 11, 14, 17] {
        edit(&mut t, l, k);
    }
    t
}
