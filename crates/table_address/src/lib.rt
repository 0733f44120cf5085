// The four addresses of a logical partition in a geometry.
// Scope: module 5 (`update_chs`), module 7 (geometry if complete: 7, 13, 14). Rules: U.
// For callers: `four::update_chs`, `is_complete`, `Geometry`.
#![tactic(auto)]

pub mod four;

ghost use Rattle.std.specs.Prelude.{◌≡◌, ◌+◌, ◌-◌};
ghost use Rattle.base.specs.Said.{answered};
ghost use Rattle.base.specs.Checks.{answer};
ghost use Rattle.table_address.specs.Address.{complete, last_checks, link_checks, address_in, link_address, with_addresses};

use base::Refusal;
use record_chs::CHS;
use record_entry::MBRPartitionEntry;
use table::LogicalPartition;

// A disk's cylinders, heads and sectors in a track.
#[derive(Clone, Copy)]
pub struct Geometry {
    pub cylinders: u16,
    pub heads: u8,
    pub sectors: u8,
}

// Cylinders 1 to 1,023, heads at least 1, sectors 1 to 63.
#[tactic(auto, unfolding(crate::specs::Address::complete))]
pub fn is_complete(g: Geometry) -> bool
    ensures { result ≡ complete g }
{
    0 < g.cylinders && g.cylinders <= 1023 && 0 < g.heads && 0 < g.sectors && g.sectors <= 63
}

// The address of the last of n sectors: the sum before the minus one is tested, 7, 13, 14.
pub fn last_of(g: Geometry, lba: u32, n: u32) -> Result<CHS, Refusal>
    ensures { answered result ≡ answer (last_checks g lba n) (address_in g (lba + n - 1)) }
{
    let end = lba as u64 + n as u64;
    if 4294967296 <= end {
        return Err(Refusal::Arithmetic);
    }
    if end == 0 {
        return Err(Refusal::Arithmetic);
    }
    CHS::from_lba_exact((end - 1) as u32, g.cylinders, g.heads, g.sectors)
}

// The address of a link's last sector, if there is a link.
pub fn link_last(g: Geometry, lba: u32, sectors: Option<u32>) -> Result<Option<CHS>, Refusal>
    ensures { answered result ≡ answer (link_checks g lba sectors) (link_address g lba sectors) }
{
    match sectors {
        None => Ok(None),
        Some(n) => Ok(Some(last_of(g, lba, n)?)),
    }
}

// The partition with other addresses.
pub fn with_addresses(
    l: LogicalPartition,
    a: CHS,
    b: CHS,
    c: CHS,
    d: Option<CHS>,
) -> LogicalPartition
    ensures { result ≡ with_addresses l a b c d }
{
    LogicalPartition {
        partition: MBRPartitionEntry {
            first_chs: a,
            last_chs: b,
            ..l.partition
        },
        ebr_first_chs: c,
        ebr_last_chs: d,
        ..l
    }
}
