// The cases of EBR records.
use case_show::line::Line;
use case_show::show::{Out, Show, answered};
use record_ebr::{EBRHeader, Kept, MARK, reader, writer};

// The bytes of X from an index on, and zeros behind its end.
pub fn part<const N: usize>(x: &[u8], at: usize) -> [u8; N] {
    let mut part = [0u8; N];
    for (to, from) in part.iter_mut().zip(x.iter().skip(at)) {
        *to = *from;
    }
    part
}

// The EBR in the line's words: the partition's entry and the link's. The code is the start of X, the mark what is behind it.
fn given(l: Line<'_>, x: &[u8]) -> EBRHeader {
    EBRHeader {
        kept: Kept {
            bootstrap_code: part(x, 0),
            mark: part::<MARK>(x, 446),
        },
        partition_1: crate::on_entry::given(l, 1),
        partition_2: crate::on_entry::given(l, 11),
    }
}

// Answers the line if its command is one of these.
pub fn run(out: &mut Out, l: Line<'_>, x: &[u8], o: &mut [u8]) -> bool {
    match l.word(0) {
        b"ebr_read" => reader::read(x).show(out),
        b"ebr_write" => {
            let answer = writer::write(given(l, x), o);
            answered(out, &answer, o);
        }
        b"ebr_again" => match reader::read(x) {
            Ok(e) => {
                let answer = writer::write(e, o);
                answered(out, &answer, o);
            }
            Err(r) => r.show(out),
        },
        _ => return false,
    }
    true
}
