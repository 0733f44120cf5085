// Lookup, free runs, places and sizes on a table as a block.
ghost use Rattle.std.specs.Prelude.{◌≡◌, length};
ghost use Rattle.base.specs.Said.{and_then};
ghost use Rattle.table_lookup.specs.Find.{find_says};
ghost use Rattle.abi_word.specs.Packed.{packed_option, packed, packed_bool};
ghost use Rattle.block.specs.Blocks.{block_says};
ghost use Rattle.table_lookup.specs.Numbers.{len_says, get_says};
ghost use Rattle.table_push.specs.Answers.{check_geometry_says, cylinder_size_says};
ghost use Rattle.block_lookup.specs.Entry.{entry_status, entry_after};
ghost use Rattle.block_free.specs.Free.{runs_for, how_many, runs_after};
ghost use Rattle.table_place.specs.Place.{first_place, last_place, optimal_place, maximum_size, maximum_for};

// The number of the partition at a sector, in the table of a block; the block's refusals, 7; 255 for none.
#[unsafe(no_mangle)]
pub extern "C" fn cv_find_at_sector(b: &[u8], sector: u32) -> u64
    ensures { result ≡ packed_option (and_then (block_says b.now) (λ t. find_says t sector)) }
{
    abi_look::cv_find_at_sector(b, sector)
}

// How many partitions the table of a block has, the four primaries always counted; the block's refusals.
#[unsafe(no_mangle)]
pub extern "C" fn cv_len(b: &[u8]) -> u64
    ensures { result ≡ packed (and_then (block_says b.now) len_says) }
{
    abi_look::cv_len(b)
}

// Whether the geometry in the table of a block is complete, 1 or 0; the block's refusals.
#[unsafe(no_mangle)]
pub extern "C" fn cv_check_geometry(b: &[u8]) -> u64
    ensures { result ≡ packed_bool (and_then (block_says b.now) check_geometry_says) }
{
    abi_look::cv_check_geometry(b)
}

// The sectors of a cylinder by the geometry in the table of a block; the block's refusals.
#[unsafe(no_mangle)]
pub extern "C" fn cv_get_cylinder_size(b: &[u8]) -> u64
    ensures { result ≡ packed (and_then (block_says b.now) cylinder_size_says) }
{
    abi_look::cv_get_cylinder_size(b)
}

// The entry of a partition number in the table of a block, as 18 bytes at the start of lent ones: the block's refusals,
// 255 for none, 19, or 0.
#[unsafe(no_mangle)]
pub extern "C" fn cv_get(b: &[u8], number: u32, out: &mut [u8]) -> u8
    ensures said { result ≡ entry_status (length out.old) (and_then (block_says b.now) (λ t. get_says t number)) }
    ensures left { out.new ≡ entry_after out.old (and_then (block_says b.now) (λ t. get_says t number)) }
{
    abi_look::cv_get(b, number, out)
}

// The free runs of the table of a block, each as start and length, at the start of the output: their number; the block's
// refusals, 7, 19.
#[unsafe(no_mangle)]
pub extern "C" fn cv_find_free_sectors(b: &[u8], out: &mut [u8]) -> u64
    ensures said { result ≡ packed (how_many (runs_for (block_says b.now) (length out.old))) }
    ensures left { out.new ≡ runs_after out.old (runs_for (block_says b.now) (length out.old)) }
{
    abi_look::free_runs::cv_find_free_sectors(b, out)
}

// The start of the first free run that is long enough; the block's refusals, 7; 255 for none.
#[unsafe(no_mangle)]
pub extern "C" fn cv_find_first_place(b: &[u8], size: u32) -> u64
    ensures { result ≡ packed_option (and_then (block_says b.now) (λ t. first_place t size)) }
{
    abi_look::free_runs::cv_find_first_place(b, size)
}

// The last aligned place in the last run that is long enough; the block's refusals, 7; 255 for none.
#[unsafe(no_mangle)]
pub extern "C" fn cv_find_last_place(b: &[u8], size: u32) -> u64
    ensures { result ≡ packed_option (and_then (block_says b.now) (λ t. last_place t size)) }
{
    abi_look::free_runs::cv_find_last_place(b, size)
}

// The start of the smallest run that is long enough; the block's refusals, 7; 255 for none.
#[unsafe(no_mangle)]
pub extern "C" fn cv_find_optimal_place(b: &[u8], size: u32) -> u64
    ensures { result ≡ packed_option (and_then (block_says b.now) (λ t. optimal_place t size)) }
{
    abi_look::free_runs::cv_find_optimal_place(b, size)
}

// The most sectors of a new partition, in whole alignments; the block's refusals, 7, 16.
#[unsafe(no_mangle)]
pub extern "C" fn cv_get_maximum_partition_size(b: &[u8]) -> u64
    ensures { result ≡ packed (and_then (block_says b.now) (λ t. maximum_size t)) }
{
    abi_look::free_runs::cv_get_maximum_partition_size(b)
}

// The sectors to which the partition with a number can grow; the block's refusals, 7, 15.
#[unsafe(no_mangle)]
pub extern "C" fn cv_get_maximum_partition_size_for(b: &[u8], number: u32) -> u64
    ensures { result ≡ packed (and_then (block_says b.now) (λ t. maximum_for t number)) }
{
    abi_look::free_runs::cv_get_maximum_partition_size_for(b, number)
}
