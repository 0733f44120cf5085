// Careful removal over an extract: one store in lent bytes, or a refusal.
// Scope: Careful changes (Careful removal; refusals 20, 17, 19). Rules: V, defined in `careful`.
// For callers: `careful_remove`.
#![tactic(auto)]

pub mod remove_stores;
pub mod remove_writer;

ghost use Rattle.std.specs.Prelude.{◌≡◌, length};
ghost use Rattle.base.specs.Said.{answered};
ghost use Rattle.careful.specs.Careful.{careful_remove_says};
ghost use Rattle.careful.specs.Output.{out_after, stores_counted};
ghost use Rattle.careful.specs.Demand3.{RemoveDemand3};

use base::Refusal;

// Careful removal: reading's refusals, 20, 17, 19; else one store. The drive may be pulled at any moment.
pub fn careful_remove(x: &[u8], number: usize, out: &mut [u8]) -> Result<usize, Refusal>
    ensures result_value { answered result ≡ stores_counted (careful_remove_says x.now (length out.old) number) }
    ensures out_after { out.new ≡ out_after out.old (careful_remove_says x.now (length out.old) number) }
    ensures remove_demand3 { RemoveDemand3 number x.now out.old (answered result) out.new }
{
    let t = read_table::read_from(x)?;
    crate::remove_stores::remove_on(t, number, out)
}
