// `push` on the table in a block, where it lies.
// Scope: module 7, for C. Rules: Z.
// For our crates: `push`.
#![tactic(auto)]

pub mod added;
pub mod asks;

ghost use Rattle.std.specs.Prelude.{◌≡◌};
ghost use Rattle.base.specs.Said.{answered, and_then};
ghost use Rattle.block.specs.Blocks.{block_says, bytes_after};
ghost use Rattle.table_push.specs.Push.{push_says};
ghost use Rattle.block_push.specs.Pushed.{pushed_on};

use base::Refusal;

// Pushes a logical partition on the table in a block, and answers its number: the block's refusals, push's.
pub fn push(b: &mut [u8], sys: u8, start: u32, sectors: u32) -> Result<u32, Refusal>
    ensures said { answered result ≡ and_then (block_says b.old) (λ t. push_says t sys start sectors) }
    ensures left { b.new ≡ bytes_after b.old (pushed_on b.old sys start sectors) }
{
    block_read::checks::check(b)?;
    let Some(e) = block_read::fields::extended(b) else {
        return Err(Refusal::NoExtendedPartition);
    };
    let n = block_read::fields::count(b);
    let q = crate::asks::request_in(b, sys, start, sectors);
    let l = table_push::new_logical(q, e, n)?;
    crate::added::add_new(b, n, l);
    Ok((n + 5) as u32)
}
