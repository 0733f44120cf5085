// A header into lent bytes.
ghost use Rattle.std.specs.Prelude.{◌≡◌, length};
ghost use Rattle.base.specs.Said.{gives, failure, refusal};
ghost use Rattle.block.specs.Block.{header_part, header_length};
ghost use Rattle.abi_header.specs.HeaderBytesHeader.{header_for, header_after};

use base::Refusal;
use record_mbr::MBRHeader;

// A header over lent bytes of its length, by way of a block.
pub fn put_header(h: MBRHeader, out: &mut [u8])
    requires { length out.old ≡ header_length }
    ensures { out.new ≡ header_part h }
{
    let mut block = [0u8; block::BLOCK];
    block_write::parts_out::put_header(&mut block, h);
    base::copy_in(out, 0, &block[20..block::SLOTS_OFFSET]);
}

// A header into lent bytes: 101.
pub fn header_to(h: MBRHeader, out: &mut [u8]) -> Result<(), Refusal>
    ensures value { refusal result ≡ failure (header_for (gives h) (length out.old)) }
    ensures out_after { out.new ≡ header_after out.old (header_for (gives h) (length out.old)) }
{
    if out.len() != block::HEADER {
        return Err(Refusal::BlockLength);
    }
    put_header(h, out);
    Ok(())
}
