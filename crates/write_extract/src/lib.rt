// The new extract of a table that is written.
// Scope: module 8 (the old extract with record 0 and each EBR laid over in chain order; 22, 19). Rules: W, defined in `write_rules`.
// For our crates: `put_table`.
#![tactic(auto)]

pub mod plan_for;

ghost use Rattle.std.specs.Prelude.{◌≡◌, length};
ghost use Rattle.std.specs.Prelude.{None};
ghost use Rattle.base.specs.Checks.{first-fail};
ghost use Rattle.extract.specs.Answers.{header_of};
ghost use Rattle.block.specs.Block.{table_in, Passed};
ghost use Rattle.write_rules.specs.AsWritten.{as_written_in, slots_geometry};
ghost use Rattle.write_rules.specs.Records.{extract_over};
ghost use Rattle.write_rules.specs.Sources.{stores_of, Writing};
ghost use Rattle.write_rules.specs.Write.{written_room};
ghost use Rattle.write_rules.specs.Answers.{Put};

use base::Refusal;
use extract::{Extract, RECORDS};
use record_entry::MBRPartitionEntry;

// The new extract of record 0 and the m logical partitions of a block, if there is room: 22, 19.
pub fn put_table(
    out: &mut [u8],
    x: &[u8],
    k: Extract,
    first: &[u8],
    b: &[u8],
    e: MBRPartitionEntry,
    m: usize,
) -> Result<usize, Refusal>
    requires writing { Writing x.now k.count m first.now × (k ≡ header_of x.now) }
    requires passed { Passed b.now × (m ≡ (table_in b.now).count) × (first-fail (slots_geometry (table_in b.now) e.starting_lba) ≡ None) }
    ensures { Put result out.old out.new (written_room x.now (stores_of first.now e (as_written_in (table_in b.now) e.starting_lba)) (length out.old)) (extract_over x.now (stores_of first.now e (as_written_in (table_in b.now) e.starting_lba))) }
{
    let n = k.count;
    let plan = crate::plan_for::plan_for(x, n, b, e.starting_lba, m);
    let slots = plan.as_slice();
    let c = slots.len();
    if RECORDS < c {
        return Err(Refusal::TooManyRecords);
    }
    let total = 24 + c * 516;
    if out.len() < total {
        return Err(Refusal::OutputTooShort);
    }
    extract::header_out::put_header(out, k.sector_size, k.disk_size, c);
    extract_lay::plan::put_lbas(out, slots);
    write_records::put_records(out, 24 + c * 4, x, n, slots, first, b, e, m);
    Ok(total)
}
