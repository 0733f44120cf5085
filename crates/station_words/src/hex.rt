// Bytes in hex digits, for an operator to read.
use std::io;

// Writes the rest of a line: the bytes, each behind a space.
pub fn line(to: &impl Print, s: &[u8]) -> io::Result<()> {
    for b in s {
        to.write_all(b" ")?;
        print!(to; "{b:02x}")?;
    }
    to.write_all(b"\n")
}
