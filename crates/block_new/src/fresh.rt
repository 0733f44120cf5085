// A new table as a block: the table that an answer gives, and a disk signature's bytes.
ghost use Rattle.std.specs.Prelude.{◌≡◌, length};
ghost use Rattle.base.specs.Bytes.{bytes_of, little};
ghost use Rattle.base.specs.Said.{answered, refusal, failure};
ghost use Rattle.block_new.specs.Put.{block_after, alone};

use base::Refusal;
use table::MBR;

// Puts the table that an answer gives into a lent block: the answer's refusal, 6, 101.
pub fn put_given(t: Result<MBR, Refusal>, out: &mut [u8]) -> Result<(), Refusal>
    ensures said { refusal result ≡ failure (alone (length out.old) (answered t)) }
    ensures left { out.new ≡ block_after out.old (answered t) }
{
    block_write::put(t?, out)
}

// A number's four bytes, little-endian.
pub fn four(v: u32) -> [u8; 4]
    ensures { result ≡ bytes_of little 4 v }
{
    v.to_le_bytes()
}
