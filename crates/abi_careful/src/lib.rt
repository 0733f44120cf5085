// The careful changes for programs in C and Rust: an extract in, stores out.
// Scope: Careful changes. Rules: Z. An answer is the number of stores, as one number as in `abi_word`.
// For callers: `cv_careful_push`, `cv_careful_remove`, `cv_is_sound` on a table as a block.
#![tactic(auto)]

pub mod soundness;

ghost use Rattle.std.specs.Prelude.{◌≡◌, ◌≤◌, length};
ghost use Rattle.careful.specs.Careful.{careful_push_says, careful_remove_says};
ghost use Rattle.careful.specs.Output.{out_after, stores_counted};
ghost use Rattle.abi_word.specs.Packed.{packed};
ghost use Rattle.abi_careful.specs.Asked.{request_with};

use table_push::{Geometry, Request};

// What a careful push asks for, from its numbers.
fn request(
    align: u32,
    cylinders: u16,
    heads: u8,
    track: u8,
    sys: u8,
    start: u32,
    sectors: u32,
) -> Request
    ensures { result ≡ request_with align cylinders heads track sys start sectors }
{
    Request {
        align,
        geometry: Geometry {
            cylinders,
            heads,
            sectors: track,
        },
        sys,
        start,
        sectors,
    }
}

// Careful push: the number of stores, which stand in `out`; reading's refusals, 20, 23, push's, 12, 21, 19.
pub fn cv_careful_push(
    x: &[u8],
    align: u32,
    cylinders: u16,
    heads: u8,
    track: u8,
    sys: u8,
    start: u32,
    sectors: u32,
    out: &mut [u8],
) -> u64
    ensures said { result ≡ packed (stores_counted (careful_push_says x.now (length out.old) (request_with align cylinders heads track sys start sectors))) }
    ensures left { out.new ≡ out_after out.old (careful_push_says x.now (length out.old) (request_with align cylinders heads track sys start sectors)) }
{
    let q = request(align, cylinders, heads, track, sys, start, sectors);
    abi_word::length_word(careful_push::careful_push(x, q, out))
}

// Careful removal: the number of stores, which stand in `out`; reading's refusals, 20, 17, 19.
pub fn cv_careful_remove(x: &[u8], number: u32, out: &mut [u8]) -> u64
    ensures said { result ≡ packed (stores_counted (careful_remove_says x.now (length out.old) number)) }
    ensures left { out.new ≡ out_after out.old (careful_remove_says x.now (length out.old) number) }
{
    abi_word::length_word(careful_remove::careful_remove(x, number as usize, out))
}
