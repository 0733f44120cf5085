// Removal of the partition that holds a sector.
ghost use Rattle.std.specs.Prelude.{◌≡◌};
ghost use Rattle.base.specs.Said.{refusal, failure, value_or};
ghost use Rattle.table_remove.specs.RemoveAt.{remove_at_says};

use base::Refusal;
use table::MBR;
use table_lookup::Kind;

// Removes the partition that holds a sector: 6, 7, 15; if refused, the table stays.
#[tactic(auto, unfolding(crate::specs::RemoveAt::remove_at_says))]
pub fn remove_at_sector(t: &mut MBR, sector: u32) -> Result<(), Refusal>
    ensures answer_value { refusal result ≡ failure (remove_at_says t.old sector) }
    ensures table_value { t.new ≡ value_or t.old (remove_at_says t.old sector) }
{
    let Some(n) = table_lookup::at_sector::find_at_sector(*t, sector)? else {
        return Err(Refusal::PartitionNotFound);
    };
    match table_lookup::kind_of(n) {
        Kind::Nothing => {}
        Kind::Primary(i) => crate::without::empty_primary(t, i),
        Kind::Logical(k) => crate::without::remove_logical(t, k),
    }
    Ok(())
}
