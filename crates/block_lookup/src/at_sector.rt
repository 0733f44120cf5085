// The partition that holds a sector, in a block where it lies.
ghost use Rattle.std.specs.Prelude.{◌≡◌};
ghost use Rattle.base.specs.Said.{answered, and_then};
ghost use Rattle.block.specs.Block.{table_in, Passed};
ghost use Rattle.block.specs.Blocks.{block_says};
ghost use Rattle.table_lookup.specs.Find.{find_says};

use base::Refusal;

// The number of the primary or logical partition that holds a sector, in a block that has passed its checks: 7.
pub fn find(b: &[u8], sector: u32) -> Result<Option<u32>, Refusal>
    requires { Passed b.now }
    ensures { answered result ≡ find_says (table_in b.now) sector }
{
    // By number: the entries stand in the bytes of the block and not in a slice.
    for i in 0..4 {
        let e = block_read::fields::primary(b, i);
        if table_lookup::hits::is_within(sector, e)? {
            let Some(n) = crate::after_hit::after_hit(b, sector, 1 + i, e)? else {
                return Ok(None);
            };
            return Ok(Some(n as u32));
        }
    }
    Ok(None)
}

// The number of the partition that holds a sector: the block's refusals, 7.
pub fn find_at_sector(b: &[u8], sector: u32) -> Result<Option<u32>, Refusal>
    ensures { answered result ≡ and_then (block_says b.now) (λ t. find_says t sector) }
{
    block_read::checks::check(b)?;
    find(b, sector)
}
