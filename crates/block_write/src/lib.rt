// A table written as a block.
// Scope: none, it is ours; refusal 6 of a count. Rules: Z.
// For our crates: `put`, `put_all`.
#![tactic(auto)]

pub mod parts_out;

ghost use Rattle.std.specs.Prelude.{◌≡◌, ◌≤◌, length};
ghost use Rattle.base.specs.Put.{put};
ghost use Rattle.base.specs.Said.{refusal};
ghost use Rattle.base.specs.Checks.{checked, first-fail};
ghost use Rattle.table.specs.Table.{most};
ghost use Rattle.block.specs.Block.{block_bytes, put_checks, block_length, table_in, Passed};

use base::Refusal;
use table::{LOGICALS, MBR};

// The whole block: it passes its checks, and the table in it is the one put there.
pub fn put_all(d: &mut [u8], t: MBR)
    requires { (length d.old ≡ block_length) × (t.count ≤ most) }
    ensures d_after { d.new ≡ block_bytes t }
    ensures passed { Passed d.new × (table_in d.new ≡ t) }
{
    parts_out::put_front(d, &t);
    parts_out::put_header(d, t.header);
    parts_out::put_slots(d, &t.logical_partitions);
}

// Writes the block of a table over lent bytes: 6, 101.
pub fn put(t: MBR, out: &mut [u8]) -> Result<(), Refusal>
    ensures result_value { refusal result ≡ first-fail (put_checks t (length out.old)) }
    ensures out_after { out.new ≡ checked (put_checks t (length out.old)) (λ _. out.old) (block_bytes t) }
{
    if LOGICALS < t.count {
        return Err(Refusal::TooManyLogicals);
    }
    if out.len() != block::BLOCK {
        return Err(Refusal::BlockLength);
    }
    put_all(out, t);
    Ok(())
}
