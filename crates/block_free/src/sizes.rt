// A maximum size in the free runs of a block.
ghost use Rattle.std.specs.Prelude.{◌≡◌};
ghost use Rattle.base.specs.Said.{answered, and_then};
ghost use Rattle.block.specs.Block.{table_in, Passed};
ghost use Rattle.block.specs.Blocks.{block_says};
ghost use Rattle.block_free.specs.Size.{size_for};

use base::Refusal;
use table_place::sizes;

// Whose maximum size is asked for: a new partition's, or that of the one with a number.
#[derive(Clone, Copy)]
pub enum Whose {
    New,
    Number(u32),
}

fn size_of(b: &[u8], whose: Whose) -> Result<u32, Refusal>
    requires { Passed b.now }
    ensures { answered result ≡ size_for whose (table_in b.now) }
{
    let found = crate::search::free_of(b);
    match whose {
        Whose::New => sizes::size_by(found, base::get32(b, 8)),
        Whose::Number(i) => {
            let runs = found?;
            let Some(e) = block_lookup::by_number::entry(b, i as usize) else {
                return Err(Refusal::PartitionNotFound);
            };
            sizes::grown(e, runs)
        }
    }
}

// A maximum size in the table of a block: the block's refusals, 7, 16 or 15.
pub fn size_in(b: &[u8], whose: Whose) -> Result<u32, Refusal>
    ensures { answered result ≡ and_then (block_says b.now) (size_for whose) }
{
    block_read::checks::check(b)?;
    size_of(b, whose)
}
