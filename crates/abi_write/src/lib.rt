// Writing for programs in C and Rust: the table of a block over an extract.
// Scope: module 8. Rules: Z. The block is left as writing leaves its table; an answer is as in `abi_word`.
// For callers: `cv_write_into`.
#![tactic(auto)]

ghost use Rattle.std.specs.Prelude.{◌≡◌, length};
ghost use Rattle.write_rules.specs.Answers.{write_table};
ghost use Rattle.base.specs.Said.{answered};
ghost use Rattle.abi_word.specs.Packed.{packed};
ghost use Rattle.block.specs.Blocks.{block_says, bytes_after, table_after};
ghost use Rattle.write_table.specs.InPlace.{written_on};
ghost use Rattle.abi_write.specs.Writing.{length_of, table_output};

use base::Refusal;

// The table of a block written over an extract: the block's refusals, then writing's.
fn write_into(b: &mut [u8], x: &[u8], out: &mut [u8]) -> Result<usize, Refusal>
    ensures said { answered result ≡ length_of (block_says b.old) x.now (length out.old) }
    ensures left { out.new ≡ table_output (block_says b.old) x.now out.old }
    ensures block { b.new ≡ bytes_after b.old (written_on b.old x.now (length out.old)) }
    ensures table { block_says b.new ≡ table_after b.old (λ t. write_table t x.now (length out.old)) }
{
    block_read::checks::check(b)?;
    write_table::write_in_place(b, x, out)
}

// Writes the table of a block over an extract, the new extract to `out`, and leaves the table in its block as writing
// leaves it: the new extract's length; the block's refusals, writing's.
pub fn cv_write_into(b: &mut [u8], x: &[u8], out: &mut [u8]) -> u64
    ensures said { result ≡ packed (length_of (block_says b.old) x.now (length out.old)) }
    ensures left { out.new ≡ table_output (block_says b.old) x.now out.old }
    ensures block { b.new ≡ bytes_after b.old (written_on b.old x.now (length out.old)) }
    ensures table { block_says b.new ≡ table_after b.old (λ t. write_table t x.now (length out.old)) }
{
    abi_word::length_word(write_into(b, x, out))
}
