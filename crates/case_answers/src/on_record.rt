// The cases of MBR records, read and written.
use case_show::line::Line;
use case_show::show::{Out, Show, answered};
use record_mbr::{reader, writer};

// Answers the line if its command is one of these.
pub fn run(out: &mut Out, l: Line<'_>, x: &[u8], o: &mut [u8]) -> bool {
    match l.word(0) {
        b"mbr_read" => reader::read(x).show(out),
        b"mbr_write" => {
            let answer = writer::write(crate::on_mbr::given(l, x), o);
            answered(out, &answer, o);
        }
        b"mbr_again" => match reader::read(x) {
            Ok(h) => {
                let answer = writer::write(h, o);
                answered(out, &answer, o);
            }
            Err(r) => r.show(out),
        },
        _ => return false,
    }
    true
}
