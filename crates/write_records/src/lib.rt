// The records of the new extract, each in its planned place, by ascending LBA.
// Scope: module 8. Rules: W, defined in `write_rules`.
// For our crates: `put_records`.
#![tactic(auto)]

pub mod one_record;

ghost use Rattle.std.specs.Prelude.{◌≡◌, ◌+◌, ◌*◌, ◌≤◌, length};
ghost use Rattle.std.specs.Prelude.{None};
ghost use Rattle.base.specs.Put.{put};
ghost use Rattle.base.specs.Checks.{first-fail};
ghost use Rattle.extract.specs.Rules.{most_records};
ghost use Rattle.extract_lay.specs.Plan.{pieces};
ghost use Rattle.block.specs.Block.{table_in, Passed};
ghost use Rattle.write_rules.specs.AsWritten.{as_written_in, slots_geometry};
ghost use Rattle.write_rules.specs.Sources.{bytes_from, stores_of, slots_of, Writing};

use extract_lay::plan::Slot;
use record_entry::MBRPartitionEntry;
use write_rules::sources::EBR_SOURCE;

// The records of the planned extract, from index `at` on, each once; the last EBR's link is the ending one.
pub fn put_records(
    out: &mut [u8],
    at: usize,
    x: &[u8],
    n: usize,
    slots: &[Slot],
    first: &[u8],
    b: &[u8],
    e: MBRPartitionEntry,
    m: usize,
)
    requires writing { Writing x.now n m first.now × (slots.now ≡ slots_of x.now (as_written_in (table_in b.now) e.starting_lba)) }
    requires passed { Passed b.now × (m ≡ (table_in b.now).count) × (first-fail (slots_geometry (table_in b.now) e.starting_lba) ≡ None) }
    requires count_le_most_records { (length slots.now ≤ most_records) × (at ≤ 4096) × (at + length slots.now * 512 ≤ length out.old) }
    ensures { out.new ≡ put out.old at (pieces (λ s. bytes_from x.now (stores_of first.now e (as_written_in (table_in b.now) e.starting_lba)) s.source) slots.now) }
{
    for (i, s) in slots.iter().enumerate() {
        let to = at + i * 512;
        if s.source < EBR_SOURCE {
            crate::one_record::put_kept(out, to, x, n, first, s.source);
        } else {
            let j = s.source - EBR_SOURCE;
            let l = write_logicals::addressed::written_slot(b, e.starting_lba, j);
            if j + 1 < m {
                let f = write_logicals::addressed::written_slot(b, e.starting_lba, j + 1);
                crate::one_record::put_ebr(out, to, l, chain::links::link_to(e, f));
            } else {
                crate::one_record::put_ebr(out, to, l, MBRPartitionEntry::empty());
            }
        }
    }
}
