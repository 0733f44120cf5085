// One logical partition's four addresses, the partition lent by &mut.
ghost use Rattle.std.specs.Prelude.{◌≡◌};
ghost use Rattle.base.specs.Said.{refusal, failure, value_or};
ghost use Rattle.table_address.specs.Address.{update_chs};
ghost use Rattle.table_address.specs.Answers.{geometry_in};

use base::Refusal;
use table::LogicalPartition;

// Alters the four addresses of the partition behind the reference and nothing else: each 7, 13, 14; a refusal alters nothing.
pub fn update_chs(
    l: &mut LogicalPartition,
    cylinders: u16,
    heads: u8,
    sectors: u8,
) -> Result<(), Refusal>
    ensures { (refusal result ≡ failure (update_chs (geometry_in cylinders heads sectors) l.old)) × (l.new ≡ value_or l.old (update_chs (geometry_in cylinders heads sectors) l.old)) }
{
    *l = table_address::four::update_chs(*l, cylinders, heads, sectors)?;
    Ok(())
}
