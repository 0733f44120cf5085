// The logical partitions as writing leaves them, or what it refuses of them.
// Scope: module 8 (geometry as in push; per logical 4, 2, 18). Rules: W.
// For our crates: `check_logicals`, `addressed::addressed_slot`, `addressed::written_slot`, `in_slots::ebr_place`.
#![tactic(auto)]

pub mod addressed;
pub mod in_slots;

ghost use Rattle.std.specs.Prelude.{◌≡◌};
ghost use Rattle.std.specs.Prelude.{None};
ghost use Rattle.base.specs.Said.{refusal};
ghost use Rattle.base.specs.Checks.{first-fail};
ghost use Rattle.table.specs.Table.{logicals};
ghost use Rattle.block.specs.Block.{table_in, Passed};
ghost use Rattle.table_push.specs.Push.{geometry_of};
ghost use Rattle.write_rules.specs.AsWritten.{link_there, row_checks, all_rows, logicals_checks, slots_geometry, as_written_in};

use base::Refusal;
use record_chs::CHS;
use table::LogicalPartition;

// Are link sectors and last link CHS there?
fn has_link(sectors: Option<u32>, last: Option<CHS>) -> bool
    ensures { result ≡ link_there sectors last }
{
    sectors.is_some() && last.is_some()
}

// Flag 4, EBR at or past the end 2, the next lacks its link fields 18.
fn row(l: LogicalPartition, d: u32, follows: bool) -> Result<(), Refusal>
    ensures { refusal result ≡ first-fail (row_checks d l follows) }
{
    if !l.partition.check() {
        return Err(Refusal::InvalidBootFlag);
    }
    if d <= l.absolute_ebr_lba.0 {
        return Err(Refusal::PastDisk);
    }
    if !follows {
        return Err(Refusal::MissingLinkFields);
    }
    Ok(())
}

// One logical partition after the other.
fn rows(b: &[u8], x: u32, d: u32) -> Result<(), Refusal>
    requires { Passed b.now × (first-fail (slots_geometry (table_in b.now) x) ≡ None) }
    ensures { refusal result ≡ first-fail (all_rows d (as_written_in (table_in b.now) x)) }
{
    // By number: the logical partitions stand in the block's bytes, and each is read from there when its turn comes.
    let n = block_read::fields::count(b);
    if n == 0 {
        return Ok(());
    }
    let mut l = crate::addressed::written_slot(b, x, 0);
    for i in 1..n {
        let m = crate::addressed::written_slot(b, x, i);
        row(l, d, has_link(m.ebr_sectors, m.ebr_last_chs))?;
        l = m;
    }
    row(l, d, true)
}

// What writing refuses of a block's logical partitions, for an extended entry that starts at x on a disk of d sectors.
pub fn check_logicals(b: &[u8], x: u32, d: u32) -> Result<(), Refusal>
    requires { Passed b.now }
    ensures { refusal result ≡ first-fail (logicals_checks (geometry_of (table_in b.now)) x d (logicals (table_in b.now))) }
{
    crate::addressed::addresses(b, x)?;
    rows(b, x, d)
}
