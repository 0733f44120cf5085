// The cases of CHS addresses.
ghost use Rattle.std.specs.Prelude.{◌<◌};

use case_show::line::Line;
use case_show::show::{Hex, Out, Show};
use record_chs::CHS;

// The address in three words of the line, after `k` spaces.
pub fn given(l: Line<'_>, k: usize) -> CHS
    requires { k < 200 }
{
    CHS::new(l.number(k), l.number(k + 1), l.number(k + 2))
}

// Answers the line if its command is one of these.
pub fn run(out: &mut Out, l: Line<'_>) -> bool {
    let c = given(l, 1);
    match l.word(0) {
        b"chs_new" => c.show(out),
        b"chs_empty" => CHS::empty().show(out),
        b"chs_exact" => {
            CHS::from_lba_exact(l.number(1), l.number(2), l.number(3), l.number(4)).show(out)
        }
        b"chs_aligned" => {
            CHS::from_lba_aligned(l.number(1), l.number(2), l.number(3), l.number(4)).show(out)
        }
        b"chs_to_lba" => c.to_lba(l.number(4), l.number(5)).show(out),
        b"chs_is_empty" => c.is_empty().show(out),
        b"chs_is_valid" => c.is_valid(l.number(4), l.number(5), l.number(6)).show(out),
        b"chs_to_bytes" => Hex(&c.to_bytes()).show(out),
        b"chs_of_bytes" => CHS::of_bytes([l.number(1), l.number(2), l.number(3)]).show(out),
        _ => return false,
    }
    true
}
