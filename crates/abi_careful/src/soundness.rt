// The test for a sound table for programs in C and Rust, on a table as a block. The answer is one number as in
// `abi_word`.
ghost use Rattle.std.specs.Prelude.{◌≡◌};
ghost use Rattle.base.specs.Said.{answered, and_then};
ghost use Rattle.abi_word.specs.Packed.{packed_bool};
ghost use Rattle.block.specs.Blocks.{block_says};
ghost use Rattle.sound.specs.Sound.{sound_says};

use base::Refusal;

fn sound_in(b: &[u8]) -> Result<bool, Refusal>
    ensures { answered result ≡ and_then (block_says b.now) sound_says }
{
    block_read::checks::check(b)?;
    sound_test::sound(block_read::parts_in::get_table(b))
}

// Whether the table of a block is sound, 1 or 0; the block's refusals.
pub fn cv_is_sound(b: &[u8]) -> u64
    ensures { result ≡ packed_bool (and_then (block_says b.now) sound_says) }
{
    abi_word::bool_word(sound_in(b))
}
