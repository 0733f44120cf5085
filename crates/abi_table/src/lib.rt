// Tables for programs in C and Rust, as blocks: reading, push, removal, a new one, another disk.
// Scope: modules 4, 5, 7. Rules: Z. What only refuses answers the refusal's number or 0; push answers as in `abi_word`.
// For callers: `cv_read`, `cv_push`, `cv_remove`, `cv_remove_at_sector`, `cv_new_from`, `cv_update_from`.
#![tactic(auto)]

pub mod edits;

ghost use Rattle.std.specs.Prelude.{◌≡◌, length};
ghost use Rattle.base.specs.Said.{and_then};
ghost use Rattle.table_push.specs.Push.{push_says, push_table};
ghost use Rattle.table_remove.specs.Remove.{removed_table};
ghost use Rattle.abi_word.specs.Packed.{packed};
ghost use Rattle.block.specs.Blocks.{block_says, refusal_number, bytes_after, table_after};
ghost use Rattle.abi_table.specs.Blocks.{table_says};
ghost use Rattle.block_push.specs.Pushed.{pushed_on};
ghost use Rattle.block_remove.specs.ByNumberRemoved.{removed_on};
ghost use Rattle.block_new.specs.Put.{block_after, alone};

// The table that an extract reads as, as a block: reading's refusals, 101.
pub fn cv_read(x: &[u8], out: &mut [u8]) -> u8
    ensures said { result ≡ refusal_number (alone (length out.old) (table_says x.now)) }
    ensures left { out.new ≡ block_after out.old (table_says x.now) }
{
    abi_word::status(block_new::fresh::put_given(read_table::read_from(x), out))
}

// push on the table of a block, where it lies: the new partition's number; the block's refusals, push's.
pub fn cv_push(b: &mut [u8], sys: u8, start: u32, sectors: u32) -> u64
    ensures said { result ≡ packed (and_then (block_says b.old) (λ t. push_says t sys start sectors)) }
    ensures left { b.new ≡ bytes_after b.old (pushed_on b.old sys start sectors) }
    ensures table { block_says b.new ≡ table_after b.old (λ t. push_table t sys start sectors) }
{
    abi_word::word(block_push::push(b, sys, start, sectors))
}

// Removal of a logical partition by its number from the table of a block, where it lies: the block's refusals, 17.
pub fn cv_remove(b: &mut [u8], i: u32) -> u8
    ensures said { result ≡ refusal_number (and_then (block_says b.old) (removed_on b.old i)) }
    ensures left { b.new ≡ bytes_after b.old (removed_on b.old i) }
    ensures table { block_says b.new ≡ table_after b.old (λ t. removed_table t i) }
{
    abi_word::status(block_remove::by_number::remove(b, i))
}
