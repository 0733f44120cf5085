// Writing: a table, or a header alone, over an extract into a second buffer.
// Scope: module 8. Rules: W.
// For callers: `write_into`, `write_header`; for our crates `write_in_place`.
#![tactic(auto)]

ghost use Rattle.std.specs.Prelude.{◌≡◌, [], ◌∷◌, ◌++◌, ◌<◌, ltb, length};
ghost use Rattle.std.specs.Prelude.{Some};
ghost use Rattle.base.specs.Said.{answered, refuses, refusal, gives, value_or};
ghost use Rattle.base.specs.Checks.{◌!◌, first-fail};
ghost use Rattle.record_mbr.specs.Mbr.{mbr_bytes, header_checks};
ghost use Rattle.extract.specs.Extract.{Good, disk_sectors};
ghost use Rattle.extract.specs.Answers.{header_of};
ghost use Rattle.table.specs.Table.{extended_in};
ghost use Rattle.block.specs.Block.{table_in, Passed};
ghost use Rattle.block.specs.Blocks.{block_says};
ghost use Rattle.write_rules.specs.Records.{extract_over};
ghost use Rattle.write_rules.specs.Write.{header_store, written_room, disk_checks, chain_on, header_refusals};
ghost use Rattle.write_rules.specs.Answers.{write_says, write_table, write_leaves, header_write_says, header_leaves, Put, Lays};
ghost use Rattle.write_table.specs.InPlace.{written_on};

use base::Refusal;
use extract::Extract;
use record_entry::MBRPartitionEntry;
use record_mbr::MBRHeader;
use table::{LOGICALS, MBR};

// The record of a header.
fn header_record(h: MBRHeader) -> [u8; 512]
    ensures { result ≡ mbr_bytes h }
{
    let mut r = [0u8; 512];
    record_mbr::fields_written::write_all(&mut r, h);
    r
}

// A header alone, over a good extract of a disk that has sectors: 22, 19.
fn lay_header(h: MBRHeader, x: &[u8], out: &mut [u8]) -> Result<usize, Refusal>
    requires { Good x.now × (0 < disk_sectors x.now) }
    ensures { Put result out.old out.new (written_room x.now (header_store h ∷ []) (length out.old)) (extract_over x.now (header_store h ∷ [])) }
{
    let first = header_record(h);
    extract_lay::over::lay_over(x, 0, &first, out)
}

// A block with an extended entry: geometry and each EBR, then room.
fn write_chain(
    b: &[u8],
    h: MBRHeader,
    e: MBRPartitionEntry,
    x: &[u8],
    k: Extract,
    out: &mut [u8],
) -> Result<usize, Refusal>
    requires { Good x.now × (k ≡ header_of x.now) × (extended_in (table_in b.now) ≡ Some e) × Passed b.now × (h ≡ (table_in b.now).header) }
    ensures { Lays result (table_in b.now) x.now out.old out.new (chain_on (table_in b.now) x.now (length out.old)) }
{
    write_logicals::check_logicals(b, e.starting_lba, k.disk_size)?;
    let first = header_record(h);
    let m = block_read::fields::count(b);
    write_extract::put_table(out, x, k, &first, b, e, m)
}

// A header for a disk of d sectors: 3, 4, then 2.
fn header_rules(h: MBRHeader, d: u32) -> Result<(), Refusal>
    ensures { refusal result ≡ first-fail (header_checks h ++ (2 ! ltb 0 d) ∷ []) }
{
    h.check()?;
    if d == 0 {
        return Err(Refusal::PastDisk);
    }
    Ok(())
}

// By the extended entry, on a disk that has sectors.
fn write_on(b: &[u8], h: MBRHeader, x: &[u8], k: Extract, out: &mut [u8]) -> Result<usize, Refusal>
    requires { Good x.now × (k ≡ header_of x.now) × Passed b.now × (h ≡ (table_in b.now).header) × (0 < disk_sectors x.now) }
    ensures { Lays result (table_in b.now) x.now out.old out.new (chain_on (table_in b.now) x.now (length out.old)) }
{
    match h.get_extended_partition() {
        None => lay_header(h, x, out),
        Some(e) => write_chain(b, h, e, x, k, out),
    }
}

// Over a good extract: header 3, 4, D 0: 2, then the rest.
fn write_good(b: &[u8], x: &[u8], k: Extract, out: &mut [u8]) -> Result<usize, Refusal>
    requires { Good x.now × (k ≡ header_of x.now) × Passed b.now }
    ensures { Lays result (table_in b.now) x.now out.old out.new (header_refusals (table_in b.now) x.now (length out.old)) }
{
    let h = block_read::parts_in::header_of(b);
    header_rules(h, k.disk_size)?;
    write_on(b, h, x, k, out)
}

// Writes the table of a block over an extract: the new one at the start of the output, all else of it as before; all as
// before if refused.
fn write_over(b: &[u8], x: &[u8], out: &mut [u8]) -> Result<usize, Refusal>
    requires { Passed b.now }
    ensures result_value { answered result ≡ write_says (table_in b.now) x.now (length out.old) }
    ensures out_after { out.new ≡ write_leaves (table_in b.now) x.now out.old }
{
    write_good(b, x, extract::check(x)?, out)
}

// Writes the table of a block over an extract, as above, and puts it into the block as writing leaves it; as before if
// refused.
pub fn write_in_place(b: &mut [u8], x: &[u8], out: &mut [u8]) -> Result<usize, Refusal>
    requires { Passed b.old }
    ensures result_value { answered result ≡ write_says (table_in b.old) x.now (length out.old) }
    ensures out_after { out.new ≡ write_leaves (table_in b.old) x.now out.old }
    ensures b_after { b.new ≡ value_or b.old (written_on b.old x.now (length out.old) (table_in b.old)) }
    ensures b_after_2 { block_says b.new ≡ gives (write_table (table_in b.old) x.now (length out.old)) }
{
    let n = write_over(b, x, out)?;
    write_block::put_written(b);
    Ok(n)
}

// Writes a table over an extract, through a block that holds it: rules G5 and W2 to W34.
pub fn write_into(t: &mut MBR, x: &[u8], out: &mut [u8]) -> Result<usize, Refusal>
    ensures said { answered result ≡ write_says t.old x.now (length out.old) }
    ensures table { t.new ≡ write_table t.old x.now (length out.old) }
    ensures left { out.new ≡ write_leaves t.old x.now out.old }
{
    if LOGICALS < t.count {
        return Err(Refusal::TooManyLogicals);
    }
    let mut b = [0u8; block::BLOCK];
    block_write::put_all(&mut b, *t);
    let answer = write_in_place(&mut b, x, out);
    *t = block_read::parts_in::get_table(&b);
    answer
}

// A header over a good extract: 3, 4, then 2, 22, 19.
fn header_good(header: MBRHeader, x: &[u8], k: Extract, out: &mut [u8]) -> Result<usize, Refusal>
    requires { Good x.now × (k ≡ header_of x.now) }
    ensures { Put result out.old out.new (header_checks header ++ (disk_checks x.now ++ written_room x.now (header_store header ∷ []) (length out.old))) (extract_over x.now (header_store header ∷ [])) }
{
    header_rules(header, k.disk_size)?;
    lay_header(header, x, out)
}

// Writes a header alone over an extract, record 0 laid over it: rule W43.
pub fn write_header(h: MBRHeader, x: &[u8], out: &mut [u8]) -> Result<usize, Refusal>
    ensures said { answered result ≡ header_write_says h x.now (length out.old) }
    ensures left { out.new ≡ header_leaves h x.now out.old }
{
    header_good(h, x, extract::check(x)?, out)
}
