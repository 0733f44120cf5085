// Removal of a partition by its number from a block, where it lies.
ghost use Rattle.std.specs.Prelude.{◌≡◌, ◌<◌, ◌+◌};
ghost use Rattle.base.specs.Said.{refusal, failure, and_then};
ghost use Rattle.block.specs.Block.{table_in, Passed};
ghost use Rattle.block.specs.Blocks.{block_says, bytes_after};
ghost use Rattle.block_remove.specs.ByNumberRemoved.{removed_on, without_number};

use base::Refusal;
use table_lookup::Kind;

// Removes a logical partition by its number from the table in a block: the block's refusals, 17.
pub fn remove(b: &mut [u8], number: u32) -> Result<(), Refusal>
    ensures said { refusal result ≡ failure (and_then (block_says b.old) (removed_on b.old number)) }
    ensures left { b.new ≡ bytes_after b.old (removed_on b.old number) }
{
    block_read::checks::check(b)?;
    let Kind::Logical(k) = table_lookup::kind_of(number as usize) else {
        return Err(Refusal::NoSuchLogical);
    };
    let n = block_read::fields::count(b);
    if n <= k {
        return Err(Refusal::NoSuchLogical);
    }
    block_slot::slot_drop::drop_slot(b, n, k);
    Ok(())
}

// A block without partition number n.
pub fn remove_number(b: &mut [u8], n: usize)
    requires { Passed b.old × (n < 5 + (table_in b.old).count) }
    ensures { b.new ≡ without_number b.old (table_in b.old).count n }
{
    match table_lookup::kind_of(n) {
        Kind::Nothing => {}
        Kind::Primary(i) => block_slot::in_place::clear_primary(b, i),
        Kind::Logical(k) => {
            let count = block_read::fields::count(b);
            block_slot::slot_drop::drop_slot(b, count, k);
        }
    }
}
