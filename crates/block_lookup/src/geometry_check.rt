// How many partitions a block has, and its geometry: each with the block's refusals.
ghost use Rattle.std.specs.Prelude.{◌≡◌};
ghost use Rattle.base.specs.Said.{answered, and_then};
ghost use Rattle.block.specs.Blocks.{block_says};
ghost use Rattle.table_lookup.specs.Numbers.{len_says};
ghost use Rattle.table_push.specs.Answers.{check_geometry_says, cylinder_size_says};

use base::Refusal;

// How many partitions, the four primaries always counted.
pub fn len(b: &[u8]) -> Result<u32, Refusal>
    ensures { answered result ≡ and_then (block_says b.now) len_says }
{
    block_read::checks::check(b)?;
    let n = block_read::fields::count(b);
    Ok((4 + n) as u32)
}

// Whether the geometry is complete.
pub fn check_geometry(b: &[u8]) -> Result<bool, Refusal>
    ensures { answered result ≡ and_then (block_says b.now) check_geometry_says }
{
    block_read::checks::check(b)?;
    let g = block_read::fields::geometry(b);
    Ok(table_push::is_complete(g))
}

// The sectors of a cylinder.
pub fn get_cylinder_size(b: &[u8]) -> Result<u32, Refusal>
    ensures { answered result ≡ and_then (block_says b.now) cylinder_size_says }
{
    block_read::checks::check(b)?;
    Ok(b[18] as u32 * b[19] as u32)
}
