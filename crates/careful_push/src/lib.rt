// Careful push over an extract: stores in lent bytes, or a refusal.
// Scope: Careful changes (Careful push; refusals 20, 23, 12, 21, 19). Rules: K, defined in `careful`.
// For callers: `careful_push`.
#![tactic(auto)]

pub mod askable;
pub mod between;

ghost use Rattle.std.specs.Prelude.{◌≡◌, ◌≤◌, length};
ghost use Rattle.base.specs.Said.{answered};
ghost use Rattle.careful.specs.Stores.{push_stores};
ghost use Rattle.table.specs.Table.{logicals, most};
ghost use Rattle.table_push.specs.Push.{place_of, later_than, new_logical};
ghost use Rattle.sound.specs.Sound.{contents_of};
ghost use Rattle.careful.specs.Careful.{push_refusals, push_change, careful_push_says};
ghost use Rattle.careful.specs.Output.{out_after, stores_counted};
ghost use Rattle.careful.specs.Demand3.{PushDemand3};
ghost use Rattle.careful_stores.specs.Behind.{Tells};
ghost use Rattle.careful_push.specs.Change.{checks_among};

use crate::askable::is_askable;
use crate::between::between_at;
use base::Refusal;
use careful_stores::push_stores::push_new;
use record_entry::MBRPartitionEntry;
use sound_test::few::is_sound;
use table::MBR;
use table_push::Request;

// A push among those of a table: push's refusals, 12, 21, 19, else its stores.
fn push_among(t: MBR, e: MBRPartitionEntry, q: Request, out: &mut [u8]) -> Result<usize, Refusal>
    requires { t.count ≤ most }
    ensures { Tells result out.old out.new (checks_among (length out.old) q e t.count (logicals t)) (push_stores e (place_of q) (logicals t) (new_logical (later_than t.count) q)) }
{
    let new = table_push::new_logical(q, e, t.count)?;
    push_new(e, between_at(t, e, new.absolute_ebr_lba.0), new, out)
}

// A careful push on a table that was read: 20, 23, push's refusals, 12, 21, 19.
#[tactic(auto, unfolding(careful::specs::Careful::push_refusals, careful::specs::Careful::ask_checks, table_push::specs::Push::push_checks))]
fn push_on(t: MBR, q: Request, out: &mut [u8]) -> Result<usize, Refusal>
    requires { t.count ≤ most }
    ensures { Tells result out.old out.new (push_refusals (length out.old) q (contents_of t)) (push_change q (contents_of t)).stores }
{
    if !is_sound(t) {
        return Err(Refusal::NotSound);
    }
    if !is_askable(q) {
        return Err(Refusal::BadRequest);
    }
    let Some(e) = t.header.get_extended_partition() else {
        return Err(Refusal::NoExtendedPartition);
    };
    push_among(t, e, q, out)
}

// Careful push: reading's refusals, 20, 23, push's, 12, 21, 19; else the stores, and how many they are. The drive may be pulled at any moment.
pub fn careful_push(x: &[u8], q: Request, out: &mut [u8]) -> Result<usize, Refusal>
    ensures result_value { answered result ≡ stores_counted (careful_push_says x.now (length out.old) q) }
    ensures out_after { out.new ≡ out_after out.old (careful_push_says x.now (length out.old) q) }
    ensures push_demand3 { PushDemand3 q x.now out.old (answered result) out.new }
{
    let t = read_table::read_from(x)?;
    push_on(t, q, out)
}
