// A place in the free runs of a block: the first, the last, the best.
ghost use Rattle.std.specs.Prelude.{◌≡◌};
ghost use Rattle.base.specs.Said.{answered, and_then};
ghost use Rattle.block.specs.Block.{table_in, Passed};
ghost use Rattle.block.specs.Blocks.{block_says};
ghost use Rattle.block_free.specs.Place.{place_by};

use base::Refusal;
use table_place::{Rule, places};

// Which place is asked for.
#[derive(Clone, Copy)]
pub enum Which {
    First,
    Last,
    Optimal,
}

fn place_of(b: &[u8], which: Which, size: u32) -> Result<Option<u32>, Refusal>
    requires { Passed b.now }
    ensures { answered result ≡ place_by which (table_in b.now) size }
{
    let found = crate::search::free_of(b);
    match which {
        Which::First => places::start_by(found, Rule::First, size),
        Which::Last => places::last_by(found, base::get32(b, 8), size),
        Which::Optimal => places::start_by(found, Rule::Smallest, size),
    }
}

// A place in the table of a block: the block's refusals, 7.
pub fn place_in(b: &[u8], which: Which, size: u32) -> Result<Option<u32>, Refusal>
    ensures { answered result ≡ and_then (block_says b.now) (λ t. place_by which t size) }
{
    block_read::checks::check(b)?;
    place_of(b, which, size)
}
