// The EBR record: code, partition entry, link entry, mark, 55 AA; read or written.
// Scope: Records (EBR); module 2. Rules: B.
// For callers: `EBRHeader`, `reader::read`, `writer::write`; for our crates `open`, `kept_of`, `kept_at`, `MARK`.
#![tactic(auto)]

pub mod reader;
pub mod writer;

ghost use Rattle.std.specs.Prelude.{◌≡◌, ◌+◌, ◌≤◌, length};
ghost use Rattle.base.specs.Said.{answered};
ghost use Rattle.base.specs.Checks.{answer};
ghost use Rattle.record_ebr.specs.Ebr.{kept_at, kept_of, entries_of, ebr_checks, no_kept, no_ebr, mark_length};

use base::Refusal;
use record_entry::MBRPartitionEntry;

// The bytes of a mark, and where it stands in a record.
pub const MARK: usize = 32;

pub const MARK_AT: usize = 478;

// What an EBR carries beside its entries: the code, and the mark that the platesetter's maker puts there.
#[derive(Clone, Copy)]
pub struct Kept {
    pub bootstrap_code: [u8; 446],
    pub mark: [u8; MARK],
}

// An EBR: the partition's entry and the link's.
#[derive(Clone, Copy)]
pub struct EBRHeader {
    pub kept: Kept,
    pub partition_1: MBRPartitionEntry,
    pub partition_2: MBRPartitionEntry,
}

// The two entries without what is kept.
#[derive(Clone, Copy)]
pub struct Entries {
    pub partition_1: MBRPartitionEntry,
    pub partition_2: MBRPartitionEntry,
}

// The code from index `code` on, and the mark from index `mark` on.
pub fn kept_at(r: &[u8], code: usize, mark: usize) -> Kept
    requires { (code + 446 ≤ length r.now) × (mark + mark_length ≤ length r.now) }
    ensures { result ≡ kept_at code mark r.now }
{
    let mut c = [0u8; 446];
    base::copy_in(&mut c, 0, &r[code..code + 446]);
    let mut m = [0u8; MARK];
    base::copy_in(&mut m, 0, &r[mark..mark + MARK]);
    Kept {
        bootstrap_code: c,
        mark: m,
    }
}

// The code and the mark of a record.
pub fn kept_of(r: &[u8]) -> Kept
    requires { 512 ≤ length r.now }
    ensures { result ≡ kept_of r.now }
{
    kept_at(r, 0, MARK_AT)
}

// The entries of a record of 512 bytes.
pub fn open(r: &[u8]) -> Result<Entries, Refusal>
    requires { 512 ≤ length r.now }
    ensures { answered result ≡ answer (ebr_checks r.now) (entries_of r.now) }
{
    if !base::stands_at(r, 510, &base::SIGNATURE) {
        return Err(Refusal::InvalidSignature);
    }
    let first = record_entry::reader::read(r, 446);
    if !first.check() {
        return Err(Refusal::InvalidBootFlag);
    }
    let second = record_entry::reader::read(r, 462);
    if !second.check() {
        return Err(Refusal::InvalidBootFlag);
    }
    Ok(Entries {
        partition_1: first,
        partition_2: second,
    })
}

impl Kept {
    // No code and no mark: zeros.
    pub fn empty() -> Kept
        ensures { result ≡ no_kept }
    {
        Kept {
            bootstrap_code: [0u8; 446],
            mark: [0u8; MARK],
        }
    }
}

impl EBRHeader {
    pub fn empty() -> EBRHeader
        ensures { result ≡ no_ebr }
    {
        EBRHeader {
            kept: Kept::empty(),
            partition_1: MBRPartitionEntry::empty(),
            partition_2: MBRPartitionEntry::empty(),
        }
    }
}
