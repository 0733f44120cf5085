// Reading: the whole table of an extract, or the sectors that reading still wants.
// Scope: Reading; Refusal numbers (reading: 1, 2, 3, 4, chain, 7); module 4. Rules: R.
// For callers: `read_from`, `wanted`; it passes on `read_header`.
#![tactic(auto)]

ghost use Rattle.std.specs.Prelude.{◌≡◌, length};
ghost use Rattle.base.specs.Said.{answered};
ghost use Rattle.extract.specs.Extract.{Good, count, disk_sectors, disk_of};
ghost use Rattle.extract.specs.Answers.{header_of};
ghost use Rattle.table.specs.Table.{most};
ghost use Rattle.chain.specs.Chain.{view, logicals_of};
ghost use Rattle.chain.specs.Walk.{places_of, counted, NotedAll};
ghost use Rattle.read_table.specs.Read.{with_chain, read_says, table_read};
ghost use Rattle.read_table.specs.Facts.{looked};
ghost use Rattle.read_table.specs.Wanted.{first_absent, wanted_says, looks_from};

use base::Refusal;
use chain::Met;
use extract::Extract;
pub use read_header::read_header;
use record_entry::MBRPartitionEntry;
use record_mbr::MBRHeader;
use table::{DiskLba, LOGICALS, LinkLba, MBR};

// The chain of the extended entry, if there is one.
fn chain_of(
    x: &[u8],
    n: usize,
    d: u32,
    extended: Option<MBRPartitionEntry>,
    ebrs: &mut [usize],
) -> Result<usize, Refusal>
    requires n_value { (n ≡ count x.now) × Good x.now }
    requires d_value { d ≡ disk_sectors x.now }
    requires ebrs_len { length ebrs.old ≡ most }
    ensures value { answered result ≡ counted 0 (places_of (logicals_of (view (disk_of x.now)) extended)) }
    ensures noted_all { NotedAll x.now ebrs.new (places_of (logicals_of (view (disk_of x.now)) extended)) }
{
    match extended {
        None => Ok(0),
        Some(e) => read_chain::read_chain(x, n, d, e, ebrs),
    }
}

// The table of a header, with its chain: the chain's refusals; no alignment is 7.
fn with_chain(x: &[u8], e: Extract, header: MBRHeader) -> Result<MBR, Refusal>
    requires { (e ≡ header_of x.now) × Good x.now }
    ensures { answered result ≡ table_read (with_chain (disk_of x.now) header) }
{
    let extended = header.get_extended_partition();
    let mut ebrs = [0usize; LOGICALS];
    let count = chain_of(x, e.count, e.disk_size, extended, &mut ebrs)?;
    let found = &ebrs[..count];
    let align = read_align::used_starts::alignment_of(x, e.count, header, found)?;
    let first = extended.unwrap_or(MBRPartitionEntry::empty());
    let logical_partitions = read_chain::logicals::attach(x, e.count, found, first);
    Ok(MBR {
        sector_size: e.sector_size,
        header,
        logical_partitions,
        count,
        align,
        cylinders: 0,
        heads: 0,
        sectors: 0,
        disk_size: e.disk_size,
    })
}

// The table, from an extract: 1, 2, 3, 4, the chain's refusals, 7.
pub fn read_from(x: &[u8]) -> Result<MBR, Refusal>
    ensures { answered result ≡ table_read (read_says x.now) }
{
    let e = extract::check(x)?;
    let header = read_header::header_of(x, e.count, e.disk_size)?;
    with_chain(x, e, header)
}

// The first sector without a record from the EBR at a link's place on.
fn wanted_from(x: &[u8], n: usize, d: u32, base: DiskLba, rel: LinkLba, left: usize) -> Option<u32>
    requires n_value { (n ≡ count x.now) × Good x.now }
    requires d_value { d ≡ disk_sectors x.now }
    ensures { result ≡ first_absent x.now (looks_from (disk_of x.now) base.0 left rel.0) }
{
    match chain::open_at(x, n, d, base, rel) {
        Met::Refused(_) => None,
        Met::Absent(a) => Some(a.0),
        Met::Ebr(h) => {
            match chain::what_follows(left, h.at, rel, h.start, h.link) {
                Err(_) => None,
                Ok(None) => None,
                Ok(Some(next)) => wanted_from(x, n, d, base, next, left - 1),
            }
        }
    }
}

// The first sector without a record that reading a checked extract looks at.
fn wanted_of(x: &[u8], n: usize, size: u32) -> Option<u32>
    requires n_value { (n ≡ count x.now) × Good x.now }
    requires size_value { size ≡ disk_sectors x.now }
    ensures { result ≡ first_absent x.now (looked (disk_of x.now)) }
{
    if size == 0 {
        return None;
    }
    let r = extract::record_of(x, n, 0);
    if r.is_empty() {
        return Some(0);
    }
    let Ok(header) = read_header::header_of(x, n, size) else {
        return None;
    };
    let extended = header.get_extended_partition()?;
    wanted_from(x, n, size, chain::area_of(extended), LinkLba(0), LOGICALS)
}

// The first sector that reading looks at and the extract has no record for: none, or 1.
pub fn wanted(x: &[u8]) -> Result<Option<u32>, Refusal>
    ensures { answered result ≡ wanted_says x.now }
{
    let good = extract::check(x)?;
    Ok(wanted_of(x, good.count, good.disk_size))
}
