// What the disk's own records say that a listing does not: of the extended partition's first sector, and of a GUID table.
use record_entry::MBRPartitionEntry;
use station_words::{errors, hex};

// The extended partition's first sector: there is none, it reads as a boot record, it is empty, or it is something else.
#[derive(Clone, Copy, PartialEq, Eq, Debug)]
pub enum FirstSector {
    NoChain,
    Reads,
    Empty,
    Other,
}

// What a record is, none for a sector that the extract has not.
fn state_of(record: &[u8]) -> FirstSector {
    if record.len() != 512 {
        return FirstSector::Empty;
    }
    match record_ebr::open(record) {
        Ok(_) => FirstSector::Reads,
        Err(_) if record.iter().all(|b| *b == 0) => FirstSector::Empty,
        Err(_) => FirstSector::Other,
    }
}

// The extended entry of an extract's table.
fn extended(x: &[u8]) -> Option<MBRPartitionEntry> {
    read_table::read_header(x).ok()?.get_extended_partition()
}

// What the extended partition's first sector is.
pub fn state(x: &[u8]) -> FirstSector {
    match extended(x) {
        None => FirstSector::NoChain,
        Some(e) => state_of(extract::look_up_record::look_up(x, e.starting_lba)),
    }
}

// Is there an extended partition, and does it end by the disk's end?
pub fn fits(x: &[u8]) -> bool {
    match (extended(x), extract::check(x)) {
        (Some(e), Ok(disk)) => {
            u64::from(e.starting_lba) + u64::from(e.sectors) <= u64::from(disk.disk_size)
        }
        _ => false,
    }
}

// Sixteen bytes of a record from an offset on, fewer at its end.
fn show_part(rt: &HostRuntime, name: &str, record: &[u8], at: usize) {
    errors::text(rt, name);
    let rest = record.get(at..).unwrap_or(&[]);
    let _ = hex::line(&rt.stderr(), rest.get(..16).unwrap_or(rest));
}

fn show_record(rt: &HostRuntime, record: &[u8]) {
    show_part(rt, "  it begins with", record, 0);
    show_part(rt, "  first entry   ", record, 446);
    show_part(rt, "  second entry  ", record, 462);
    show_part(rt, "  it ends with  ", record, 510);
}

// Says what the extended partition begins with that is no boot record.
pub fn show_other(rt: &HostRuntime, x: &[u8]) {
    let Some(e) = extended(x) else {
        return;
    };
    let lba = e.starting_lba;
    errors::with_number(
        rt,
        "warning: sector ",
        lba,
        ", where the extended partition begins, is no boot record and not empty; sfdisk may still show zones that are not listed here\n",
    );
    show_record(rt, extract::look_up_record::look_up(x, lba));
}

// The type of an entry that stands for a GUID table.
const GUID: u8 = 0xEE;

// Says that the disk has a GUID table, if it has one.
pub fn show_guid(rt: &HostRuntime, x: &[u8]) {
    let Ok(h) = read_table::read_header(x) else {
        return;
    };
    let entries = [h.partition_1, h.partition_2, h.partition_3, h.partition_4];
    if entries.iter().any(|e| e.sys == GUID) {
        errors::warning(
            rt,
            "this disk has a GUID partition table (GPT); its partitions are not listed here",
        );
    }
}
