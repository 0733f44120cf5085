// A CHS address in lent bytes, read and written.
ghost use Rattle.std.specs.Prelude.{◌≡◌, ◌+◌, ◌≤◌, length};
ghost use Rattle.base.specs.Bytes.{bytes_at};
ghost use Rattle.base.specs.Put.{put};
ghost use Rattle.record_chs.specs.Chs.{chs_of, chs_bytes};

use crate::CHS;

// The address in the three bytes from index `at` on.
pub fn read(s: &[u8], at: usize) -> CHS
    requires { at + 3 ≤ length s.now }
    ensures { result ≡ chs_of (bytes_at s.now at 3) }
{
    CHS::of_bytes([s[at], s[at + 1], s[at + 2]])
}

// The address into the three bytes from index `at` on.
pub fn write(d: &mut [u8], at: usize, c: CHS)
    requires { at + 3 ≤ length d.old }
    ensures { d.new ≡ put d.old at (chs_bytes c) }
{
    base::copy_in(d, at, &c.to_bytes());
}
