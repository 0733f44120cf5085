// `push`: one more logical partition in a table.
// Scope: module 7 (its refusals in their order), module 5 (`check_geometry`). Rules: P, U.
// For callers: `push`, `check_geometry`, `get_cylinder_size`; for our crates `new_logical` of a `Request`.
#![tactic(auto)]

pub mod request;

ghost use Rattle.std.specs.Prelude.{◌≡◌, ◌+◌, ◌-◌, ◌*◌, ◌≤◌, ◌<◌, ◌^◌, [], ◌∷◌, ◌++◌, Some, ltb};
ghost use Rattle.base.specs.Said.{answered};
ghost use Rattle.base.specs.Checks.{◌!◌, answer};
ghost use Rattle.table.specs.Table.{most};
ghost use Rattle.table_push.specs.Asked.{place_of, size_of, later_than};
ghost use Rattle.table_push.specs.Push.{fresh, new_logical, geometry_checks, push_checks, push_says, push_table};
ghost use Rattle.table_push.specs.Answers.{check_geometry_says, cylinder_size_says, link_sectors, link_last};

use crate::request::EbrPlace;
pub use crate::request::Request;
use base::Refusal;
use record_chs::CHS;
use record_ebr::Kept;
use record_entry::MBRPartitionEntry;
use table::{DiskLba, LogicalPartition, MBR};
pub use table_address::four::{update_chs, with_geometry};
pub use table_address::{Geometry, is_complete};

// Is the table's geometry complete? 6.
pub fn check_geometry(t: MBR) -> Result<bool, Refusal>
    ensures { answered result ≡ check_geometry_says t }
{
    if table::LOGICALS < t.count {
        return Err(Refusal::TooManyLogicals);
    }
    Ok(table_address::is_complete(Geometry {
        cylinders: t.cylinders,
        heads: t.heads,
        sectors: t.sectors,
    }))
}

// The sectors of a cylinder: 6.
pub fn get_cylinder_size(t: MBR) -> Result<u32, Refusal>
    ensures { answered result ≡ cylinder_size_says t }
{
    if table::LOGICALS < t.count {
        return Err(Refusal::TooManyLogicals);
    }
    Ok(base::wide(t.heads) * base::wide(t.sectors))
}

// Link sectors and last link CHS of a partition behind n others: only a later one has them.
fn link_sectors(n: usize, size: u32) -> Option<u32>
    ensures { result ≡ link_sectors n size }
{
    if n == 0 { None } else { Some(size) }
}

fn no_link_last(n: usize) -> Option<CHS>
    ensures { result ≡ link_last n }
{
    if n == 0 { None } else { Some(CHS::empty()) }
}

// The new partition behind n others, without its addresses.
fn fresh_logical(q: Request, p: EbrPlace, n: usize) -> LogicalPartition
    requires { (p.at ≡ place_of q) × (p.size ≡ size_of q) × (p.at + q.align < 2 ^ 32) × (q.align ≤ p.size) }
    ensures { result ≡ fresh (later_than n) q }
{
    LogicalPartition {
        partition: MBRPartitionEntry {
            boot: record_entry::BOOT_INACTIVE,
            first_chs: CHS::empty(),
            sys: q.sys,
            last_chs: CHS::empty(),
            starting_lba: p.at + q.align,
            sectors: p.size - q.align,
        },
        absolute_ebr_lba: DiskLba(p.at),
        ebr_sectors: link_sectors(n, p.size),
        ebr_first_chs: CHS::empty(),
        ebr_last_chs: no_link_last(n),
        kept: Kept::empty(),
    }
}

// The new partition behind n others at a place that serves: addresses, then 6.
fn placed_logical(q: Request, p: EbrPlace, n: usize) -> Result<LogicalPartition, Refusal>
    requires { (p.at ≡ place_of q) × (p.size ≡ size_of q) × (p.at + q.align < 2 ^ 32) × (q.align ≤ p.size) }
    ensures { answered result ≡ answer (geometry_checks (later_than n) q ++ (6 ! ltb n most) ∷ []) (new_logical (later_than n) q) }
{
    let l = table_address::four::with_geometry(q.geometry, fresh_logical(q, p, n))?;
    if table::LOGICALS <= n {
        return Err(Refusal::TooManyLogicals);
    }
    Ok(l)
}

// The new partition of a request behind n others in an extended entry.
pub fn new_logical(q: Request, e: MBRPartitionEntry, n: usize) -> Result<LogicalPartition, Refusal>
    ensures { answered result ≡ answer (push_checks q (Some e) n) (new_logical (later_than n) q) }
{
    let p = crate::request::rounding(q)?;
    let place = crate::request::place_rules(q, p, e);
    let end = crate::request::end_rules(q, p, e, n);
    place?;
    end?;
    placed_logical(q, p, n)
}

// Pushes a logical partition behind the others; its EBR is at the start, rounded up. The answer is its number; a refusal
// leaves the table as it was. Rules G5 and P2 to P32.
pub fn push(t: &mut MBR, sys: u8, starting_lba: u32, sectors: u32) -> Result<usize, Refusal>
    ensures answer_value { answered result ≡ push_says t.old sys starting_lba sectors }
    ensures table_value { t.new ≡ push_table t.old sys starting_lba sectors }
{
    let n = t.count;
    if table::LOGICALS < n {
        return Err(Refusal::TooManyLogicals);
    }
    let Some(e) = t.header.get_extended_partition() else {
        return Err(Refusal::NoExtendedPartition);
    };
    let q = Request {
        align: t.align,
        geometry: Geometry {
            cylinders: t.cylinders,
            heads: t.heads,
            sectors: t.sectors,
        },
        sys,
        start: starting_lba,
        sectors,
    };
    let l = new_logical(q, e, n)?;
    t.logical_partitions[n] = l;
    t.count = n + 1;
    Ok(n + 5)
}
