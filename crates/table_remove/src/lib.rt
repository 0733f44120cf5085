// Removal of a partition from a table, by its number or by a sector.
// Scope: module 5 (`remove`, `remove_at_sector`); refusal 17. Rules: D.
// For callers: `remove`, `at_sector::remove_at_sector`.
#![tactic(auto)]

pub mod at_sector;
pub mod without;

ghost use Rattle.std.specs.Prelude.{◌≡◌};
ghost use Rattle.base.specs.Said.{answered};
ghost use Rattle.base.specs.Checks.{answer};
ghost use Rattle.table_remove.specs.Remove.{remove_checks, removed_table, removed_partition};

use base::Refusal;
use table::{LogicalPartition, MBR};
use table_lookup::Kind;

// Removes a logical partition, and answers it; the later numbers fall by one: 6, 17; if refused, the table stays.
#[tactic(auto, using(base::proofs::Tests::tests))]
pub fn remove(t: &mut MBR, number: usize) -> Result<LogicalPartition, Refusal>
    ensures answer_value { answered result ≡ answer (remove_checks t.old number) (removed_partition t.old number) }
    ensures table_value { t.new ≡ removed_table t.old number }
{
    let n = t.count;
    if table::LOGICALS < n {
        return Err(Refusal::TooManyLogicals);
    }
    let Kind::Logical(k) = table_lookup::kind_of(number) else {
        return Err(Refusal::NoSuchLogical);
    };
    if n <= k {
        return Err(Refusal::NoSuchLogical);
    }
    let l = t.logical_partitions[k];
    crate::without::remove_logical(t, k);
    Ok(l)
}
