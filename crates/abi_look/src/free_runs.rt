// Free runs, places and sizes for programs in C and Rust, on a table as a block. An answer is one number as in
// `abi_word`.
ghost use Rattle.std.specs.Prelude.{◌≡◌, length};
ghost use Rattle.base.specs.Said.{and_then};
ghost use Rattle.table_place.specs.Place.{first_place, last_place, optimal_place, maximum_size, maximum_for};
ghost use Rattle.abi_word.specs.Packed.{packed, packed_option};
ghost use Rattle.block.specs.Blocks.{block_says};
ghost use Rattle.block_free.specs.Free.{runs_for, how_many, runs_after};

use block_free::places::Which;
use block_free::sizes::Whose;

// The free runs of the table of a block, each as start and length, at the start of the output: their number; the block's
// refusals, 7, 19.
pub fn cv_find_free_sectors(b: &[u8], out: &mut [u8]) -> u64
    ensures said { result ≡ packed (how_many (runs_for (block_says b.now) (length out.old))) }
    ensures left { out.new ≡ runs_after out.old (runs_for (block_says b.now) (length out.old)) }
{
    abi_word::word(block_free::runs::free_on(b, out))
}

// The start of the first free run that is long enough; the block's refusals, 7; 255 for none.
pub fn cv_find_first_place(b: &[u8], size: u32) -> u64
    ensures { result ≡ packed_option (and_then (block_says b.now) (λ t. first_place t size)) }
{
    abi_word::option_word(block_free::places::place_in(b, Which::First, size))
}

// The last aligned place in the last run that is long enough; the block's refusals, 7; 255 for none.
pub fn cv_find_last_place(b: &[u8], size: u32) -> u64
    ensures { result ≡ packed_option (and_then (block_says b.now) (λ t. last_place t size)) }
{
    abi_word::option_word(block_free::places::place_in(b, Which::Last, size))
}

// The start of the smallest run that is long enough; the block's refusals, 7; 255 for none.
pub fn cv_find_optimal_place(b: &[u8], size: u32) -> u64
    ensures { result ≡ packed_option (and_then (block_says b.now) (λ t. optimal_place t size)) }
{
    abi_word::option_word(block_free::places::place_in(b, Which::Optimal, size))
}

// The most sectors of a new partition, in whole alignments; the block's refusals, 7, 16.
pub fn cv_get_maximum_partition_size(b: &[u8]) -> u64
    ensures { result ≡ packed (and_then (block_says b.now) (λ t. maximum_size t)) }
{
    abi_word::word(block_free::sizes::size_in(b, Whose::New))
}

// The sectors to which the partition with a number can grow; the block's refusals, 7, 15.
pub fn cv_get_maximum_partition_size_for(b: &[u8], number: u32) -> u64
    ensures { result ≡ packed (and_then (block_says b.now) (λ t. maximum_for t number)) }
{
    abi_word::word(block_free::sizes::size_in(b, Whose::Number(number)))
}
