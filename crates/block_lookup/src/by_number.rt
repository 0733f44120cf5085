// The entry of a partition number, in a block where it lies.
ghost use Rattle.std.specs.Prelude.{◌≡◌};
ghost use Rattle.base.specs.Said.{answered, and_then, gives};
ghost use Rattle.block.specs.Block.{table_in, Passed};
ghost use Rattle.block.specs.Blocks.{block_says};
ghost use Rattle.table_lookup.specs.Numbers.{get_says};

use base::Refusal;
use record_entry::MBRPartitionEntry;
use table_lookup::Kind;

// The entry of a partition number, in a block that has passed its checks.
pub fn entry(b: &[u8], number: usize) -> Option<MBRPartitionEntry>
    requires { Passed b.now }
    ensures { gives result ≡ get_says (table_in b.now) number }
{
    match table_lookup::kind_of(number) {
        Kind::Nothing => None,
        Kind::Primary(i) => Some(block_read::fields::primary(b, i - 1)),
        Kind::Logical(k) => {
            if block_read::fields::count(b) <= k {
                return None;
            }
            Some(block_read::fields::logical(b, k))
        }
    }
}

// The entry of a partition number: the block's refusals.
pub fn get(b: &[u8], number: usize) -> Result<Option<MBRPartitionEntry>, Refusal>
    ensures { answered result ≡ and_then (block_says b.now) (λ t. get_says t number) }
{
    block_read::checks::check(b)?;
    Ok(entry(b, number))
}
