// Lookup for programs in C and Rust, on a table as a block, with free runs, places, sizes.
// Scope: modules 5, 6. Rules: Z. An answer is one number as in `abi_word`, 255 in its upper half for none.
// For callers: `cv_find_…`, `cv_get_…`, `cv_len`, `cv_get`, `cv_check_geometry`.
#![tactic(auto)]

pub mod free_runs;

ghost use Rattle.std.specs.Prelude.{◌≡◌, length};
ghost use Rattle.base.specs.Said.{and_then};
ghost use Rattle.table_lookup.specs.Find.{find_says};
ghost use Rattle.table_lookup.specs.Numbers.{len_says, get_says};
ghost use Rattle.table_push.specs.Answers.{check_geometry_says, cylinder_size_says};
ghost use Rattle.abi_word.specs.Packed.{packed, packed_option, packed_bool};
ghost use Rattle.block.specs.Blocks.{block_says};
ghost use Rattle.block_lookup.specs.Entry.{entry_status, entry_after};

// The number of the partition at a sector, in the table of a block; the block's refusals, 7; 255 for none.
pub fn cv_find_at_sector(b: &[u8], sector: u32) -> u64
    ensures { result ≡ packed_option (and_then (block_says b.now) (λ t. find_says t sector)) }
{
    abi_word::option_word(block_lookup::at_sector::find_at_sector(b, sector))
}

// How many partitions the table of a block has, the four primaries always counted; the block's refusals.
pub fn cv_len(b: &[u8]) -> u64
    ensures { result ≡ packed (and_then (block_says b.now) len_says) }
{
    abi_word::word(block_lookup::geometry_check::len(b))
}

// Whether the geometry in the table of a block is complete, 1 or 0; the block's refusals.
pub fn cv_check_geometry(b: &[u8]) -> u64
    ensures { result ≡ packed_bool (and_then (block_says b.now) check_geometry_says) }
{
    abi_word::bool_word(block_lookup::geometry_check::check_geometry(b))
}

// The sectors of a cylinder by the geometry in the table of a block; the block's refusals.
pub fn cv_get_cylinder_size(b: &[u8]) -> u64
    ensures { result ≡ packed (and_then (block_says b.now) cylinder_size_says) }
{
    abi_word::word(block_lookup::geometry_check::get_cylinder_size(b))
}

// The entry of a partition number in the table of a block, as 18 bytes at the start of lent ones: the block's refusals,
// 255 for none, 19, or 0.
pub fn cv_get(b: &[u8], number: u32, out: &mut [u8]) -> u8
    ensures said { result ≡ entry_status (length out.old) (and_then (block_says b.now) (λ t. get_says t number)) }
    ensures left { out.new ≡ entry_after out.old (and_then (block_says b.now) (λ t. get_says t number)) }
{
    match block_lookup::by_number::get(b, number as usize) {
        Err(k) => k.number(),
        Ok(None) => abi_word::NOTHING,
        Ok(Some(e)) => abi_word::status(block_lookup::entry_bytes::put_found(e, out)),
    }
}
