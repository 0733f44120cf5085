// The cases of partition entries.
ghost use Rattle.std.specs.Prelude.{◌<◌};

use case_show::line::Line;
use case_show::show::{Out, Show};
use record_entry::{BOOT_ACTIVE, BOOT_INACTIVE, MBRPartitionEntry};

// The entry in ten words of the line, after `k` spaces.
pub fn given(l: Line<'_>, k: usize) -> MBRPartitionEntry
    requires { k < 100 }
{
    MBRPartitionEntry {
        boot: l.number(k),
        first_chs: crate::on_chs::given(l, k + 1),
        sys: l.number(k + 4),
        last_chs: crate::on_chs::given(l, k + 5),
        starting_lba: l.number(k + 8),
        sectors: l.number(k + 9),
    }
}

// Answers the line if its command is one of these.
pub fn run(out: &mut Out, l: Line<'_>) -> bool {
    match l.word(0) {
        b"entry_boot" => {
            BOOT_ACTIVE.show(out);
            BOOT_INACTIVE.show(out);
        }
        b"entry_empty" => MBRPartitionEntry::empty().show(out),
        b"entry_is" => {
            let e = given(l, 1);
            e.is_used().show(out);
            e.is_unused().show(out);
            e.is_extended().show(out);
            e.is_active().show(out);
        }
        _ => return false,
    }
    true
}
