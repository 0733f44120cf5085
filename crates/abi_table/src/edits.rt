// Tables as blocks for programs in C and Rust: removal by a sector, and tables for the disk of an extract. Each answers
// the refusal's number, or 0.
ghost use Rattle.std.specs.Prelude.{◌≡◌, length};
ghost use Rattle.base.specs.Bytes.{bytes_of, little};
ghost use Rattle.base.specs.Said.{and_then, value_or};
ghost use Rattle.table_remove.specs.RemoveAt.{remove_at_says};
ghost use Rattle.table_new.specs.Disk.{new_says, update_says};
ghost use Rattle.block.specs.Blocks.{block_says, refusal_number, bytes_after, table_after};
ghost use Rattle.block_new.specs.Put.{block_after, alone};
ghost use Rattle.block_remove.specs.AtSectorRemoved.{removed_at_on};
ghost use Rattle.block_new.specs.Updated.{updated_on};

// Removal of the partition at a sector from the table of a block, where it lies: the block's refusals, 7, 15.
pub fn cv_remove_at_sector(b: &mut [u8], sector: u32) -> u8
    ensures said { result ≡ refusal_number (and_then (block_says b.old) (λ t. remove_at_says t sector)) }
    ensures left { b.new ≡ bytes_after b.old (removed_at_on b.old sector) }
    ensures table { block_says b.new ≡ table_after b.old (λ t. value_or t (remove_at_says t sector)) }
{
    abi_word::status(block_remove::at_sector::remove_at_sector(b, sector))
}

// A new table for the disk of an extract, as a block: 1, 101. The disk signature's bytes are the number's, little-endian.
pub fn cv_new_from(x: &[u8], signature: u32, out: &mut [u8]) -> u8
    ensures said { result ≡ refusal_number (alone (length out.old) (new_says x.now (bytes_of little 4 signature))) }
    ensures left { out.new ≡ block_after out.old (new_says x.now (bytes_of little 4 signature)) }
{
    let t = table_new::new_from(x, block_new::fresh::four(signature));
    abi_word::status(block_new::fresh::put_given(t, out))
}

// Puts the table of a block on the disk of an extract, where it lies: the block's refusals, 1.
pub fn cv_update_from(b: &mut [u8], x: &[u8]) -> u8
    ensures said { result ≡ refusal_number (and_then (block_says b.old) (λ t. update_says t x.now)) }
    ensures left { b.new ≡ bytes_after b.old (updated_on b.old x.now) }
    ensures table { block_says b.new ≡ table_after b.old (λ t. value_or t (update_says t x.now)) }
{
    abi_word::status(block_new::other_disk::update_from(b, x))
}
