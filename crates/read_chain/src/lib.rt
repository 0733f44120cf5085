// The chain of an extract, walked by EBR step, link step; the logical partitions in it.
// Scope: Reading, module 4: the chain as `chain` defines it. Rules: R.
// For our crates: `read_chain`, `logicals::attach`.
#![tactic(auto)]

pub mod logicals;

ghost use Rattle.std.specs.Prelude.{◌≡◌, ◌+◌, ◌-◌, ◌≤◌, length, drop, Some};
ghost use Rattle.base.specs.Said.{answered};
ghost use Rattle.extract.specs.Extract.{Good, count, disk_sectors, disk_of};
ghost use Rattle.table.specs.Table.{most};
ghost use Rattle.chain.specs.Chain.{view, logicals_of};
ghost use Rattle.chain.specs.Walk.{ebr_in, HeadAt, places, places_from, places_of, counted, NotedAll};

use base::Refusal;
use chain::{Head, Met};
use record_entry::MBRPartitionEntry;
use table::{DiskLba, LOGICALS, LinkLba};

// One EBR, already opened, and what follows it: at most `left` EBRs. Their record numbers stand in `found` behind those of the EBRs before.
#[cycle(ebr_step_link_step)]
fn ebr_step(
    x: &[u8],
    n: usize,
    d: u32,
    base: DiskLba,
    rel: LinkLba,
    h: Head,
    left: usize,
    found: &mut [usize],
) -> Result<usize, Refusal>
    requires n_value { (n ≡ count x.now) × Good x.now }
    requires d_value { d ≡ disk_sectors x.now }
    requires head_at { HeadAt x.now (base.0 + rel.0) h }
    requires left_le_most { (left ≤ most) × (length found.old ≡ most) }
    ensures value { answered result ≡ counted (most - left) (places (view (disk_of x.now)) base.0 left rel.0 (ebr_in x.now h)) }
    ensures noted_all { NotedAll x.now (drop (most - left) found.new) (places (view (disk_of x.now)) base.0 left rel.0 (ebr_in x.now h)) }
{
    match chain::what_follows(left, h.at, rel, h.start, h.link)? {
        None => {
            found[LOGICALS - left] = h.number;
            Ok(LOGICALS - left + 1)
        }
        Some(next) => {
            let count = link_step(x, n, d, base, next, left - 1, found)?;
            found[LOGICALS - left] = h.number;
            Ok(count)
        }
    }
}

// The chain at a link's place: at most `left` EBRs.
#[cycle(ebr_step_link_step)]
fn link_step(
    x: &[u8],
    n: usize,
    d: u32,
    base: DiskLba,
    link: LinkLba,
    left: usize,
    found: &mut [usize],
) -> Result<usize, Refusal>
    requires n_value { (n ≡ count x.now) × Good x.now }
    requires d_value { d ≡ disk_sectors x.now }
    requires left_le_most { (left ≤ most) × (length found.old ≡ most) }
    ensures value { answered result ≡ counted (most - left) (places_from (view (disk_of x.now)) base.0 left link.0) }
    ensures noted_all { NotedAll x.now (drop (most - left) found.new) (places_from (view (disk_of x.now)) base.0 left link.0) }
{
    match chain::open_at(x, n, d, base, link) {
        Met::Refused(k) => Err(k),
        Met::Absent(_) => Err(Refusal::InvalidSignature),
        Met::Ebr(h) => ebr_step(x, n, d, base, link, h, left, found),
    }
}

// The chain of an extended partition. If its first EBR fails there are no logical partitions and no refusal.
pub fn read_chain(
    x: &[u8],
    n: usize,
    d: u32,
    extended: MBRPartitionEntry,
    found: &mut [usize],
) -> Result<usize, Refusal>
    requires n_value { (n ≡ count x.now) × Good x.now }
    requires d_value { d ≡ disk_sectors x.now }
    requires found_len { length found.old ≡ most }
    ensures value { answered result ≡ counted 0 (places_of (logicals_of (view (disk_of x.now)) (Some extended))) }
    ensures noted_all { NotedAll x.now found.new (places_of (logicals_of (view (disk_of x.now)) (Some extended))) }
{
    let base = chain::area_of(extended);
    let Met::Ebr(first) = chain::open_at(x, n, d, base, LinkLba(0)) else {
        return Ok(0);
    };
    ebr_step(x, n, d, base, LinkLba(0), first, LOGICALS, found)
}
