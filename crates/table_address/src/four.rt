// A logical partition with its four addresses.
ghost use Rattle.std.specs.Prelude.{◌≡◌};
ghost use Rattle.base.specs.Said.{answered};
ghost use Rattle.base.specs.Checks.{answer};
ghost use Rattle.table_address.specs.Address.{update_chs, slot_geometry, by_geometry};
ghost use Rattle.table_address.specs.Answers.{geometry_in};

use crate::Geometry;
use base::Refusal;
use record_chs::CHS;
use table::LogicalPartition;

// The partition with its four addresses, in their order.
fn update(g: Geometry, l: LogicalPartition) -> Result<LogicalPartition, Refusal>
    ensures { answered result ≡ update_chs g l }
{
    let e = l.partition;
    let at = l.absolute_ebr_lba;
    let first = CHS::from_lba_exact(e.starting_lba, g.cylinders, g.heads, g.sectors)?;
    let last = crate::last_of(g, e.starting_lba, e.sectors)?;
    let link = CHS::from_lba_exact(at.0, g.cylinders, g.heads, g.sectors)?;
    let end = crate::link_last(g, at.0, l.ebr_sectors)?;
    Ok(crate::with_addresses(l, first, last, link, end))
}

// The partition with other four addresses and nothing else altered: each 7, 13, 14. Rules U1 and U9.
pub fn update_chs(
    l: LogicalPartition,
    cylinders: u16,
    heads: u8,
    sectors: u8,
) -> Result<LogicalPartition, Refusal>
    ensures { answered result ≡ update_chs (geometry_in cylinders heads sectors) l }
{
    update(
        Geometry {
            cylinders,
            heads,
            sectors,
        },
        l,
    )
}

// The partition with its addresses, if the geometry is complete; else as it is.
pub fn with_geometry(g: Geometry, l: LogicalPartition) -> Result<LogicalPartition, Refusal>
    ensures { answered result ≡ answer (slot_geometry g l) (by_geometry g l) }
{
    if !crate::is_complete(g) {
        return Ok(l);
    }
    update(g, l)
}
