// Addresses and types for programs in C and Rust: functions on numbers.
// Scope: module 1; Records (Extended); module 5 (`update_chs`). Rules: Z. An answer is as in `abi_word`.
// For callers: `cv_chs_…`, `cv_is_extended`, `cv_update_chs` on a lone slot.
#![tactic(auto)]

pub mod chs_word;
pub mod slot_chs;

ghost use Rattle.std.specs.Prelude.{◌≡◌, [], ◌∷◌};
ghost use Rattle.base.specs.Said.{gives};
ghost use Rattle.base.specs.Bytes.{number, little};
ghost use Rattle.record_chs.specs.Chs.{chs, chs_bytes, chs_of, exact, aligned, lba_of, is_valid};
ghost use Rattle.record_entry.specs.Entry.{extended};
ghost use Rattle.abi_word.specs.Packed.{packed};
ghost use Rattle.abi_address.specs.Chs.{packed_chs};

use record_chs::CHS;
use record_entry::MBRPartitionEntry;

// The address of a sector; 7, 13, 14.
pub fn cv_chs_from_lba_exact(lba: u32, cylinders: u16, heads: u8, sectors: u8) -> u64
    ensures { result ≡ packed_chs (exact lba cylinders heads sectors) }
{
    crate::chs_word::of_placed(CHS::from_lba_exact(lba, cylinders, heads, sectors))
}

// The cylinder that begins at a sector, or the next one; 7, 13, 14.
pub fn cv_chs_from_lba_aligned(lba: u32, cylinders: u16, heads: u8, sectors: u8) -> u64
    ensures { result ≡ packed_chs (aligned lba cylinders heads sectors) }
{
    crate::chs_word::of_placed(CHS::from_lba_aligned(lba, cylinders, heads, sectors))
}

// The sector of an address; 7.
pub fn cv_chs_to_lba(cylinder: u16, head: u8, sector: u8, heads: u8, sectors: u8) -> u64
    ensures { result ≡ packed (lba_of (chs cylinder head sector) heads sectors) }
{
    let c = CHS::new(cylinder, head, sector);
    abi_word::word(c.to_lba(heads, sectors))
}

// Whether an address is valid for a geometry.
pub fn cv_chs_is_valid(
    cylinder: u16,
    head: u8,
    sector: u8,
    cylinders: u16,
    heads: u8,
    sectors: u8,
) -> bool
    ensures { result ≡ is_valid (chs cylinder head sector) cylinders heads sectors }
{
    let c = CHS::new(cylinder, head, sector);
    c.is_valid(cylinders, heads, sectors)
}

// The three bytes of an address as a number, little-endian; higher bits are dropped.
pub fn cv_chs_to_bytes(cylinder: u16, head: u8, sector: u8) -> u32
    ensures { result ≡ number little (chs_bytes (chs cylinder head sector)) }
{
    let c = CHS::new(cylinder, head, sector);
    let b = c.to_bytes();
    base::wide(b[0]) + base::wide(b[1]) * 256 + base::wide(b[2]) * 65536
}

// The address in three bytes.
pub fn cv_chs_from_bytes(one: u8, two: u8, three: u8) -> u64
    ensures { result ≡ packed_chs (gives (chs_of (one ∷ two ∷ three ∷ []))) }
{
    crate::chs_word::of_chs(CHS::of_bytes([one, two, three]))
}

// Whether a type is an extended partition's.
pub fn cv_is_extended(sys: u8) -> bool
    ensures { result ≡ extended sys }
{
    let mut e = MBRPartitionEntry::empty();
    e.sys = sys;
    e.is_extended()
}
