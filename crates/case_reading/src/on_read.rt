// Reading: X is an extract.
use case_show::line::Line;
use case_show::show::{Out, Show};

// Answers the line if its command is one of these.
pub fn run(out: &mut Out, l: Line<'_>, x: &[u8], _o: &mut [u8]) -> bool {
    match l.word(0) {
        b"read" => read_table::read_from(x).show(out),
        b"read_header" => read_table::read_header(x).show(out),
        b"wanted" => read_table::wanted(x).show(out),
        _ => return false,
    }
    true
}
