// The plan of the extract to be written. Internal.
ghost use Rattle.std.specs.Prelude.{◌≡◌, ◌≤◌};
ghost use Rattle.extract.specs.Extract.{Good, count};
ghost use Rattle.extract_lay.specs.Plan.{plan_of, most_slots};
ghost use Rattle.block.specs.Block.{table_in, Passed};
ghost use Rattle.write_rules.specs.AsWritten.{as_written_in};
ghost use Rattle.write_rules.specs.Sources.{slots_of};

use extract_lay::plan::{Plan, Slot};
use write_rules::sources::{EBR_SOURCE, MBR_SOURCE};

// The plan of the new extract: record 0, and the EBRs of a block's m logical partitions, laid over the old one in chain
// order; the first EBR goes to `first_at`.
pub fn plan_for(x: &[u8], n: usize, b: &[u8], first_at: u32, m: usize) -> Plan
    requires { (n ≡ count x.now) × Good x.now × Passed b.now × (m ≡ (table_in b.now).count) }
    ensures { (result ≡ plan_of (slots_of x.now (as_written_in (table_in b.now) first_at))) × (result.count ≤ most_slots) }
{
    let mut plan = extract_lay::plan::old(x, n);
    extract_lay::plan::lay(
        &mut plan,
        Slot {
            lba: 0,
            source: MBR_SOURCE,
        },
    );
    // By number: the partitions stand in the bytes of the block, and a source is a number.
    for i in 0..m {
        let lba = write_logicals::in_slots::ebr_place(b, first_at, i);
        extract_lay::plan::lay(
            &mut plan,
            Slot {
                lba,
                source: EBR_SOURCE + i,
            },
        );
    }
    plan
}
