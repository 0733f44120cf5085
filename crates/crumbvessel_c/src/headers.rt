// A header alone, as the bytes that it has in a block.
ghost use Rattle.std.specs.Prelude.{◌≡◌, length};
ghost use Rattle.base.specs.Said.{failure, and_then};
ghost use Rattle.read_table.specs.Read.{header_says as headerReads};
ghost use Rattle.abi_word.specs.Packed.{status, packed};
ghost use Rattle.abi_header.specs.HeaderBytesHeader.{header_for, header_after};
ghost use Rattle.write_rules.specs.Answers.{header_write_says as headerWrites};
ghost use Rattle.abi_header.specs.Header.{lent_header, header_output};

// The header of an extract, to lent bytes: 1, 2, 3, 4, 101.
#[unsafe(no_mangle)]
pub extern "C" fn cv_read_header(x: &[u8], out: &mut [u8]) -> u8
    ensures said { result ≡ status (failure (header_for (headerReads x.now) (length out.old))) }
    ensures left { out.new ≡ header_after out.old (header_for (headerReads x.now) (length out.old)) }
{
    abi_header::cv_read_header(x, out)
}

// Writes the header in lent bytes over an extract, the new extract to `out`: its length; 101, writing's refusals.
#[unsafe(no_mangle)]
pub extern "C" fn cv_write_header(header: &[u8], x: &[u8], out: &mut [u8]) -> u64
    ensures said { result ≡ packed (and_then (lent_header header.now) (λ h. headerWrites h x.now (length out.old))) }
    ensures left { out.new ≡ header_output (lent_header header.now) x.now out.old }
{
    abi_header::cv_write_header(header, x, out)
}
