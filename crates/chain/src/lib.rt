// What a chain of EBRs is: where a link leads, an EBR opened, what follows it; an EBR with its link, as it is written.
// Scope: Reading (per EBR 2, 3, 4, 6, 7, 5; link start 0 ends it; the first EBR forgiven; link fields); Records (a written link). Rules: R, W.
// For our crates: `open_at`, `what_follows`, `place`, `link_of`, `links::link_to`, `links::ebr_with`.
#![tactic(auto)]

pub mod links;

ghost use Rattle.std.specs.Prelude.{◌≡◌, ◌+◌, ◌-◌, ◌<◌};
ghost use Rattle.std.specs.Prelude.{None};
ghost use Rattle.base.specs.Checks.{answer};
ghost use Rattle.record_ebr.specs.Ebr.{ebr_checks, ebr_of};
ghost use Rattle.extract.specs.Extract.{Good, count, disk_sectors, lba_at, record_at, disk_of};
ghost use Rattle.chain.specs.Chain.{view, follows};
ghost use Rattle.chain.specs.Walk.{place_on, reached_said, follows_said, met_said, lack_of, lack_said, MetAt};

use base::Refusal;
use record_entry::MBRPartitionEntry;
use table::{DiskLba, LinkLba};

// An EBR that is opened: the number of its record, its place, its partition's start and its link's.
#[derive(Clone, Copy)]
pub struct Head {
    pub number: usize,
    pub at: DiskLba,
    pub start: u32,
    pub link: LinkLba,
}

// What stands at a link's place: a refusal, a sector without a record, or an EBR. An enum of its own: whether a sector without a
// record is a refusal is for the one who asks to say.
#[derive(Clone, Copy)]
pub enum Met {
    Refused(Refusal),
    Absent(DiskLba),
    Ebr(Head),
}

// Where a link leads on a disk of d sectors. Nowhere else is a link's place turned into one of the disk.
#[tactic(auto, using(base::proofs::Tests::tests))]
pub fn place(d: u32, base: DiskLba, rel: LinkLba) -> Option<DiskLba>
    ensures { reached_said result ≡ place_on d (base.0 + rel.0) }
{
    let a = base.0.checked_add(rel.0)?;
    if d <= a {
        return None;
    }
    Some(DiskLba(a))
}

// The link to a place on the disk, the inverse of `place`: 0 where that is not behind the base. Nowhere else is one of the disk turned into a link's.
pub fn link_of(base: DiskLba, at: DiskLba) -> LinkLba
    ensures { result.0 ≡ at.0 - base.0 }
{
    LinkLba(at.0.saturating_sub(base.0))
}

// The place of an extended partition, from which its links count.
pub fn area_of(extended: MBRPartitionEntry) -> DiskLba
    ensures { result.0 ≡ extended.starting_lba }
{
    DiskLba(extended.starting_lba)
}

// The place of the EBR of record number i.
pub fn place_of(x: &[u8], n: usize, i: usize) -> DiskLba
    requires n_value { (n ≡ count x.now) × Good x.now }
    requires i_lt_n { i < n }
    ensures { result.0 ≡ lba_at x.now i }
{
    DiskLba(extract::lba_at(x, n, i))
}

// What follows an EBR at a place, with `left` EBRs still allowed: the 25th EBR 6; partition start + place beyond 32 bits 7; link start 0 is an end; one not above the current link's place 5; else the link.
#[tactic(auto, using(base::proofs::Tests::tests), unfolding(crate::specs::Chain::follows))]
pub fn what_follows(
    left: usize,
    at: DiskLba,
    rel: LinkLba,
    start: u32,
    link: LinkLba,
) -> Result<Option<LinkLba>, Refusal>
    ensures { follows_said result ≡ follows left at.0 rel.0 start link.0 }
{
    let first = start as u64 + at.0 as u64;
    if left == 0 {
        return Err(Refusal::TooManyLogicals);
    }
    if 4294967296 <= first {
        return Err(Refusal::Arithmetic);
    }
    if link.0 == 0 {
        return Ok(None);
    }
    if link.0 <= rel.0 {
        return Err(Refusal::InconsistentEBR);
    }
    Ok(Some(link))
}

// The EBR of record number i, which stands at a place: signature 3, flags 4.
#[tactic(auto, using(crate::proofs::Steps::record_long))]
fn open_record(x: &[u8], n: usize, i: usize, at: DiskLba) -> Met
    requires n_value { (n ≡ count x.now) × Good x.now }
    requires i_lt_n { (i < n) × (lba_at x.now i ≡ at.0) }
    ensures result_value { met_said x.now result ≡ answer (ebr_checks (record_at x.now i)) (ebr_of (record_at x.now i)) }
    ensures result_value_2 { (lack_said result ≡ None) × MetAt x.now at.0 result }
{
    let r = extract::record_at(x, n, i);
    match record_ebr::open(r) {
        Err(k) => Met::Refused(k),
        Ok(e) => Met::Ebr(Head {
            number: i,
            at,
            start: e.partition_1.starting_lba,
            link: LinkLba(e.partition_2.starting_lba),
        }),
    }
}

// The EBR at a link's place: at or past the end 2, signature 3, flags 4. A sector without a record is blank: 3.
pub fn open_at(x: &[u8], n: usize, d: u32, base: DiskLba, rel: LinkLba) -> Met
    requires n_value { (n ≡ count x.now) × Good x.now }
    requires d_value { d ≡ disk_sectors x.now }
    ensures result_value { met_said x.now result ≡ view (disk_of x.now) (base.0 + rel.0) }
    ensures result_value_2 { (lack_said result ≡ lack_of x.now (base.0 + rel.0)) × MetAt x.now (base.0 + rel.0) result }
{
    let Some(at) = place(d, base, rel) else {
        return Met::Refused(Refusal::PastDisk);
    };
    match extract::seek(x, n, at.0) {
        Err(_) => Met::Absent(at),
        Ok(i) => open_record(x, n, i, at),
    }
}
