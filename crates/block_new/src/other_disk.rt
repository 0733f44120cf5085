// The table in a block put on the disk of an extract, where it lies.
ghost use Rattle.std.specs.Prelude.{◌≡◌};
ghost use Rattle.base.specs.Said.{refusal, failure, value_or, and_then};
ghost use Rattle.table_new.specs.Disk.{update_says};
ghost use Rattle.block.specs.Blocks.{block_says, bytes_after, table_after};
ghost use Rattle.block_new.specs.Updated.{updated_on};

use base::Refusal;

// Puts the table in a block on the disk of an extract: the block's refusals, 1.
pub fn update_from(b: &mut [u8], x: &[u8]) -> Result<(), Refusal>
    ensures said { refusal result ≡ failure (and_then (block_says b.old) (λ t. update_says t x.now)) }
    ensures left { b.new ≡ bytes_after b.old (updated_on b.old x.now) }
    ensures table { block_says b.new ≡ table_after b.old (λ t. value_or t (update_says t x.now)) }
{
    block_read::checks::check(b)?;
    let e = extract::check(x)?;
    block_slot::in_place::put_disk(b, e.sector_size, e.disk_size);
    Ok(())
}
