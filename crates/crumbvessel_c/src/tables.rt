// Tables as blocks: reading, push, removal, a new one, another disk.
ghost use Rattle.std.specs.Prelude.{◌≡◌, length};
ghost use Rattle.block.specs.Blocks.{refusal_number, block_says, bytes_after, table_after};
ghost use Rattle.abi_table.specs.Blocks.{table_says};
ghost use Rattle.block_new.specs.Put.{block_after, alone};
ghost use Rattle.base.specs.Said.{and_then, value_or};
ghost use Rattle.table_push.specs.Push.{push_says, push_table};
ghost use Rattle.abi_word.specs.Packed.{packed};
ghost use Rattle.block_push.specs.Pushed.{pushed_on};
ghost use Rattle.table_remove.specs.Remove.{removed_table};
ghost use Rattle.block_remove.specs.ByNumberRemoved.{removed_on};
ghost use Rattle.table_remove.specs.RemoveAt.{remove_at_says};
ghost use Rattle.block_remove.specs.AtSectorRemoved.{removed_at_on};
ghost use Rattle.base.specs.Bytes.{bytes_of, little};
ghost use Rattle.table_new.specs.Disk.{new_says, update_says};
ghost use Rattle.block_new.specs.Updated.{updated_on};

// The table that an extract reads as, as a block: reading's refusals, 101.
#[unsafe(no_mangle)]
pub extern "C" fn cv_read(x: &[u8], out: &mut [u8]) -> u8
    ensures said { result ≡ refusal_number (alone (length out.old) (table_says x.now)) }
    ensures left { out.new ≡ block_after out.old (table_says x.now) }
{
    abi_table::cv_read(x, out)
}

// push on the table of a block, where it lies: the new partition's number; the block's refusals, push's.
#[unsafe(no_mangle)]
pub extern "C" fn cv_push(b: &mut [u8], sys: u8, start: u32, sectors: u32) -> u64
    ensures said { result ≡ packed (and_then (block_says b.old) (λ t. push_says t sys start sectors)) }
    ensures left { b.new ≡ bytes_after b.old (pushed_on b.old sys start sectors) }
    ensures table { block_says b.new ≡ table_after b.old (λ t. push_table t sys start sectors) }
{
    abi_table::cv_push(b, sys, start, sectors)
}

// Removal of a logical partition by its number from the table of a block, where it lies: the block's refusals, 17.
#[unsafe(no_mangle)]
pub extern "C" fn cv_remove(b: &mut [u8], i: u32) -> u8
    ensures said { result ≡ refusal_number (and_then (block_says b.old) (removed_on b.old i)) }
    ensures left { b.new ≡ bytes_after b.old (removed_on b.old i) }
    ensures table { block_says b.new ≡ table_after b.old (λ t. removed_table t i) }
{
    abi_table::cv_remove(b, i)
}

// Removal of the partition at a sector from the table of a block, where it lies: the block's refusals, 7, 15.
#[unsafe(no_mangle)]
pub extern "C" fn cv_remove_at_sector(b: &mut [u8], sector: u32) -> u8
    ensures said { result ≡ refusal_number (and_then (block_says b.old) (λ t. remove_at_says t sector)) }
    ensures left { b.new ≡ bytes_after b.old (removed_at_on b.old sector) }
    ensures table { block_says b.new ≡ table_after b.old (λ t. value_or t (remove_at_says t sector)) }
{
    abi_table::edits::cv_remove_at_sector(b, sector)
}

// A new table for the disk of an extract, as a block: 1, 101. The disk signature's bytes are the number's, little-endian.
#[unsafe(no_mangle)]
pub extern "C" fn cv_new_from(x: &[u8], signature: u32, out: &mut [u8]) -> u8
    ensures said { result ≡ refusal_number (alone (length out.old) (new_says x.now (bytes_of little 4 signature))) }
    ensures left { out.new ≡ block_after out.old (new_says x.now (bytes_of little 4 signature)) }
{
    abi_table::edits::cv_new_from(x, signature, out)
}

// Puts the table of a block on the disk of an extract, where it lies: the block's refusals, 1.
#[unsafe(no_mangle)]
pub extern "C" fn cv_update_from(b: &mut [u8], x: &[u8]) -> u8
    ensures said { result ≡ refusal_number (and_then (block_says b.old) (λ t. update_says t x.now)) }
    ensures left { b.new ≡ bytes_after b.old (updated_on b.old x.now) }
    ensures table { block_says b.new ≡ table_after b.old (λ t. value_or t (update_says t x.now)) }
{
    abi_table::edits::cv_update_from(b, x)
}
