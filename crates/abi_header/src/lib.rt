// A header alone for programs in C and Rust: the bytes that it has in a block.
// Scope: Reading and module 8, of record 0 alone. Rules: Z.
// For callers: `cv_read_header`, `cv_write_header`.
#![tactic(auto)]

pub mod header_bytes;

ghost use Rattle.std.specs.Prelude.{◌≡◌, length};
ghost use Rattle.base.specs.Said.{and_then, answered, failure, refusal};
ghost use Rattle.read_table.specs.Read.{header_says as headerReads};
ghost use Rattle.write_rules.specs.Answers.{header_write_says as headerWrites};
ghost use Rattle.abi_word.specs.Packed.{packed, status};
ghost use Rattle.abi_header.specs.HeaderBytesHeader.{header_for, header_after};
ghost use Rattle.abi_header.specs.Header.{lent_header, header_output};

use base::Refusal;

// The header of an extract, to lent bytes.
fn read_header(x: &[u8], out: &mut [u8]) -> Result<(), Refusal>
    ensures said { refusal result ≡ failure (header_for (headerReads x.now) (length out.old)) }
    ensures left { out.new ≡ header_after out.old (header_for (headerReads x.now) (length out.old)) }
{
    crate::header_bytes::header_to(read_table::read_header(x)?, out)
}

// The header in lent bytes, written over an extract.
fn write_header(header: &[u8], x: &[u8], out: &mut [u8]) -> Result<usize, Refusal>
    ensures said { answered result ≡ and_then (lent_header header.now) (λ h. headerWrites h x.now (length out.old)) }
    ensures left { out.new ≡ header_output (lent_header header.now) x.now out.old }
{
    if header.len() != block::HEADER {
        return Err(Refusal::BlockLength);
    }
    write_table::write_header(block_read::parts_in::get_header(header), x, out)
}

// The header of an extract, to lent bytes: 1, 2, 3, 4, 101.
pub fn cv_read_header(x: &[u8], out: &mut [u8]) -> u8
    ensures said { result ≡ status (failure (header_for (headerReads x.now) (length out.old))) }
    ensures left { out.new ≡ header_after out.old (header_for (headerReads x.now) (length out.old)) }
{
    abi_word::status(read_header(x, out))
}

// Writes the header in lent bytes over an extract, the new extract to `out`: its length; 101, writing's refusals.
pub fn cv_write_header(header: &[u8], x: &[u8], out: &mut [u8]) -> u64
    ensures said { result ≡ packed (and_then (lent_header header.now) (λ h. headerWrites h x.now (length out.old))) }
    ensures left { out.new ≡ header_output (lent_header header.now) x.now out.old }
{
    abi_word::length_word(write_header(header, x, out))
}
