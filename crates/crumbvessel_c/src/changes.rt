// Careful changes, an extract in and stores out, and the test for a sound table.
ghost use Rattle.std.specs.Prelude.{◌≡◌, length};
ghost use Rattle.careful.specs.Careful.{careful_push_says, careful_remove_says};
ghost use Rattle.careful.specs.Output.{out_after, stores_counted};
ghost use Rattle.abi_word.specs.Packed.{packed, packed_bool};
ghost use Rattle.abi_careful.specs.Asked.{request_with};
ghost use Rattle.base.specs.Said.{and_then};
ghost use Rattle.block.specs.Blocks.{block_says};
ghost use Rattle.sound.specs.Sound.{sound_says};

// Careful push: the number of stores, which stand in `out`; reading's refusals, 20, 23, push's, 12, 21, 19.
#[unsafe(no_mangle)]
pub extern "C" fn cv_careful_push(
    x: &[u8],
    align: u32,
    cylinders: u16,
    heads: u8,
    track: u8,
    sys: u8,
    start: u32,
    sectors: u32,
    out: &mut [u8],
) -> u64
    ensures said { result ≡ packed (stores_counted (careful_push_says x.now (length out.old) (request_with align cylinders heads track sys start sectors))) }
    ensures left { out.new ≡ out_after out.old (careful_push_says x.now (length out.old) (request_with align cylinders heads track sys start sectors)) }
{
    abi_careful::cv_careful_push(x, align, cylinders, heads, track, sys, start, sectors, out)
}

// Careful removal: the number of stores, which stand in `out`; reading's refusals, 20, 17, 19.
#[unsafe(no_mangle)]
pub extern "C" fn cv_careful_remove(x: &[u8], number: u32, out: &mut [u8]) -> u64
    ensures said { result ≡ packed (stores_counted (careful_remove_says x.now (length out.old) number)) }
    ensures left { out.new ≡ out_after out.old (careful_remove_says x.now (length out.old) number) }
{
    abi_careful::cv_careful_remove(x, number, out)
}

// Whether the table of a block is sound, 1 or 0; the block's refusals.
#[unsafe(no_mangle)]
pub extern "C" fn cv_is_sound(b: &[u8]) -> u64
    ensures { result ≡ packed_bool (and_then (block_says b.now) sound_says) }
{
    abi_careful::soundness::cv_is_sound(b)
}
