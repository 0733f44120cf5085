// A partition entry read from lent bytes.
ghost use Rattle.std.specs.Prelude.{◌≡◌, ◌+◌, ◌≤◌, length};
ghost use Rattle.record_entry.specs.Entry.{entry_at};

use crate::MBRPartitionEntry;

// The entry in the 16 bytes from index `at` on.
pub fn read(s: &[u8], at: usize) -> MBRPartitionEntry
    requires { at + 16 ≤ length s.now }
    ensures { result ≡ entry_at s.now at }
{
    MBRPartitionEntry {
        boot: s[at],
        first_chs: record_chs::three_bytes::read(s, at + 1),
        sys: s[at + 4],
        last_chs: record_chs::three_bytes::read(s, at + 5),
        starting_lba: base::get32(s, at + 8),
        sectors: base::get32(s, at + 12),
    }
}
