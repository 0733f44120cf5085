// Numbers in lent bytes, lists laid over lists, refusals in order.
// Scope: all numbers little-endian; of several refusals the first is answered; other lent bytes stay. Rules: G.
// For our crates: `get16`, `get32`, `put8`, `put16`, `put32`, `copy_in`, `stands_at`; `Refusal`, why a call is refused.
#![tactic(auto)]

ghost use Rattle.std.specs.Prelude.{◌≡◌, ◌+◌, ◌≤◌, ◌<◌, List, [], ◌∷◌, length};
ghost use Rattle.base.specs.Bytes.{number, bytes_of, bytes_at, stands_at, little};
ghost use Rattle.base.specs.Put.{put};
ghost use Rattle.base.specs.Said.{refusal_code};

// Why a call is refused. From `BlockLength` on it is a lent block that is at fault.
#[derive(Clone, Copy, Debug, PartialEq, Eq)]
pub enum Refusal {
    BadExtract,
    PastDisk,
    InvalidSignature,
    InvalidBootFlag,
    InconsistentEBR,
    TooManyLogicals,
    Arithmetic,
    NoExtendedPartition,
    NotEnoughSectorsToCreateLogicalPartition,
    EBRStartsBeforeExtendedPartition,
    EBRStartsTooCloseToTheEndOfExtendedPartition,
    EBREndsAfterExtendedPartition,
    LBAExceedsMaximumCHS,
    LBAExceedsMaximumCylinders,
    PartitionNotFound,
    NoSpaceLeft,
    NoSuchLogical,
    MissingLinkFields,
    OutputTooShort,
    NotSound,
    NoGap,
    TooManyRecords,
    BadRequest,
    BlockLength,
    BlockTag,
}

impl Refusal {
    // Its number: in the C header, and in what the programs print.
    pub fn number(self) -> u8
        ensures { result ≡ refusal_code self }
    {
        match self {
            Refusal::BadExtract => 1,
            Refusal::PastDisk => 2,
            Refusal::InvalidSignature => 3,
            Refusal::InvalidBootFlag => 4,
            Refusal::InconsistentEBR => 5,
            Refusal::TooManyLogicals => 6,
            Refusal::Arithmetic => 7,
            Refusal::NoExtendedPartition => 8,
            Refusal::NotEnoughSectorsToCreateLogicalPartition => 9,
            Refusal::EBRStartsBeforeExtendedPartition => 10,
            Refusal::EBRStartsTooCloseToTheEndOfExtendedPartition => 11,
            Refusal::EBREndsAfterExtendedPartition => 12,
            Refusal::LBAExceedsMaximumCHS => 13,
            Refusal::LBAExceedsMaximumCylinders => 14,
            Refusal::PartitionNotFound => 15,
            Refusal::NoSpaceLeft => 16,
            Refusal::NoSuchLogical => 17,
            Refusal::MissingLinkFields => 18,
            Refusal::OutputTooShort => 19,
            Refusal::NotSound => 20,
            Refusal::NoGap => 21,
            Refusal::TooManyRecords => 22,
            Refusal::BadRequest => 23,
            Refusal::BlockLength => 101,
            Refusal::BlockTag => 102,
        }
    }
}

// The last two bytes of an MBR and of an EBR.
pub const SIGNATURE: [u8; 2] = *b"\x55\xAA";

// A byte as a number to compute with, and no `u32::from`: the sums around it want the bound that its clause gives.
pub fn wide(b: u8) -> u32
    ensures { (result ≡ b) × (result < 256) }
{
    b as u32
}

// The little-endian number in the two bytes from index `at` on. Each width has its function: it is one call of the library's.
pub fn get16(s: &[u8], at: usize) -> u16
    requires { at + 2 ≤ length s.now }
    ensures { result ≡ number little (bytes_at s.now at 2) }
{
    u16::from_le_bytes([s[at], s[at + 1]])
}

// The little-endian number in the four bytes from index `at` on.
pub fn get32(s: &[u8], at: usize) -> u32
    requires { at + 4 ≤ length s.now }
    ensures { result ≡ number little (bytes_at s.now at 4) }
{
    u32::from_le_bytes([s[at], s[at + 1], s[at + 2], s[at + 3]])
}

// A byte into lent bytes.
pub fn put8(d: &mut [u8], at: usize, v: u8)
    requires { at + 1 ≤ length d.old }
    ensures { d.new ≡ put d.old at (v ∷ []) }
{
    d[at] = v;
}

// A number into two lent bytes, little-endian.
pub fn put16(d: &mut [u8], at: usize, v: u16)
    requires { at + 2 ≤ length d.old }
    ensures { d.new ≡ put d.old at (bytes_of little 2 v) }
{
    d[at..at + 2].copy_from_slice(&v.to_le_bytes());
}

// A number into four lent bytes, little-endian.
pub fn put32(d: &mut [u8], at: usize, v: u32)
    requires { at + 4 ≤ length d.old }
    ensures { d.new ≡ put d.old at (bytes_of little 4 v) }
{
    d[at..at + 4].copy_from_slice(&v.to_le_bytes());
}

// All of `src` into `d` from index `at` on.
pub fn copy_in(d: &mut [u8], at: usize, src: &[u8])
    requires { at + length src.now ≤ length d.old }
    ensures { d.new ≡ put d.old at src.now }
{
    d[at..at + src.len()].copy_from_slice(src);
}

// Does the word stand in `s` from index `at` on?
pub fn stands_at(s: &[u8], at: usize, word: &[u8]) -> bool
    requires { at + length word.now ≤ length s.now }
    ensures { result ≡ stands_at s.now at word.now }
{
    &s[at..at + word.len()] == word
}
