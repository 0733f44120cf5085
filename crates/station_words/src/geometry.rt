// The option that spells a geometry, C/H/S.
use crate::errors::Told;
use crate::{args, wrong};
use std::io::AsBytes;
use table_address::Geometry;

// No geometry.
const NONE: Geometry = Geometry {
    cylinders: 0,
    heads: 0,
    sectors: 0,
};

// The geometry that C/H/S spells.
fn spelt(s: &[u8]) -> Option<Geometry> {
    let mut numbers = s.split(|b| *b == b'/');
    let geometry = Geometry {
        cylinders: args::decimal(numbers.next()?)?,
        heads: args::decimal(numbers.next()?)?,
        sectors: args::decimal(numbers.next()?)?,
    };
    if numbers.next().is_some() {
        return None;
    }
    Some(geometry)
}

// The geometry behind an option, or none where the option is not there.
pub fn option<W: AsBytes + Drop>(rt: &HostRuntime, from: usize, word: W) -> Result<Geometry, Told> {
    let word = word.as_byte_slice();
    let Some(i) = args::find(rt, from, word) else {
        return Ok(NONE);
    };
    let mut space = [0u8; args::LONGEST];
    spelt(args::bytes(rt, i + 1, &mut space)).ok_or_else(|| {
        wrong::behind(
            rt,
            i + 1,
            word,
            "C/H/S, with C up to 65535, H and S up to 255",
        )
    })
}
