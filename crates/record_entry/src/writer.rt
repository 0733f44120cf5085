// A partition entry written into lent bytes.
ghost use Rattle.std.specs.Prelude.{◌≡◌, ◌+◌, ◌≤◌, length};
ghost use Rattle.base.specs.Put.{put};
ghost use Rattle.record_entry.specs.Entry.{entry_bytes};

use crate::MBRPartitionEntry;

// The entry into the 16 bytes from index `at` on.
pub fn write(d: &mut [u8], at: usize, e: MBRPartitionEntry)
    requires { at + 16 ≤ length d.old }
    ensures { d.new ≡ put d.old at (entry_bytes e) }
{
    base::put8(d, at, e.boot);
    record_chs::three_bytes::write(d, at + 1, e.first_chs);
    base::put8(d, at + 4, e.sys);
    record_chs::three_bytes::write(d, at + 5, e.last_chs);
    base::put32(d, at + 8, e.starting_lba);
    base::put32(d, at + 12, e.sectors);
}
