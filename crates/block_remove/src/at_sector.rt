// Removal of the partition at a sector from a block, where it lies.
ghost use Rattle.std.specs.Prelude.{◌≡◌};
ghost use Rattle.base.specs.Said.{refusal, failure, and_then};
ghost use Rattle.block.specs.Blocks.{block_says, bytes_after};
ghost use Rattle.table_remove.specs.RemoveAt.{remove_at_says};
ghost use Rattle.block_remove.specs.AtSectorRemoved.{removed_at_on};

use base::Refusal;

// Removes the partition at a sector from the table in a block: the block's refusals, 7, 15.
pub fn remove_at_sector(b: &mut [u8], sector: u32) -> Result<(), Refusal>
    ensures said { refusal result ≡ failure (and_then (block_says b.old) (λ t. remove_at_says t sector)) }
    ensures left { b.new ≡ bytes_after b.old (removed_at_on b.old sector) }
{
    block_read::checks::check(b)?;
    let Some(n) = block_lookup::at_sector::find(b, sector)? else {
        return Err(Refusal::PartitionNotFound);
    };
    crate::by_number::remove_number(b, n as usize);
    Ok(())
}
