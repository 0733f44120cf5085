// The listing of an extract's table, as text.
// Scope: Numbers to hold (the listing: first line, used entries, two hex digits in capitals, `refused`). Rules: T.
// For callers: `listing`, `list_table`.
#![tactic(auto)]

pub mod entry_lines;
pub mod phrases;
pub mod text;

ghost use Rattle.std.specs.Prelude.{◌≡◌, ◌≤◌, ◌<◌, length};
ghost use Rattle.base.specs.Said.{answered};
ghost use Rattle.base.specs.Put.{put};
ghost use Rattle.base.specs.Checks.{checked, answer};
ghost use Rattle.table.specs.Table.{most};
ghost use Rattle.read_listing.specs.Listing.{table_text, listing, table_list_checks, listing_checks, room};

use base::Refusal;
use table::{LOGICALS, MBR};

// The bytes that a line needs.
pub const LINE: usize = 64;

// The bytes that a listing needs: a line for each logical partition, and eight more.
pub const LISTING: usize = LINE * (LOGICALS + 8);

// The text of a table from index 0 on.
fn put_table(d: &mut [u8], t: MBR) -> usize
    requires { (t.count ≤ most) × (room ≤ length d.old) }
    ensures { (result ≡ length (table_text t)) × (d.new ≡ put d.old 0 (table_text t)) }
{
    let n = t.count as u32;
    let at = crate::phrases::put_first(d, t.disk_size, t.align, n);
    let at = crate::entry_lines::put_primaries(d, at, t.header);
    crate::entry_lines::put_logicals(d, at, t)
}

// The listing of a table: 6, 19.
#[tactic(auto, using(base::proofs::Tests::tests))]
pub fn list_table(t: MBR, out: &mut [u8]) -> Result<usize, Refusal>
    ensures result_value { answered result ≡ answer (table_list_checks t (length out.old)) (length (table_text t)) }
    ensures out_after { out.new ≡ checked (table_list_checks t (length out.old)) (λ _. out.old) (put out.old 0 (table_text t)) }
{
    if LOGICALS < t.count {
        return Err(Refusal::TooManyLogicals);
    }
    if out.len() < LISTING {
        return Err(Refusal::OutputTooShort);
    }
    Ok(put_table(out, t))
}

// The listing of the table that an extract reads as, or its refusal: 19 only.
pub fn listing(x: &[u8], out: &mut [u8]) -> Result<usize, Refusal>
    ensures result_value { answered result ≡ answer (listing_checks (length out.old)) (length (listing x.now)) }
    ensures out_after { out.new ≡ checked (listing_checks (length out.old)) (λ _. out.old) (put out.old 0 (listing x.now)) }
{
    if out.len() < LISTING {
        return Err(Refusal::OutputTooShort);
    }
    Ok(match read_table::read_from(x) {
        Ok(t) => put_table(out, t),
        Err(k) => crate::phrases::put_refused(out, k.number()),
    })
}
