// The cases of extracts: X is one, or one and a record.
use case_show::line::Line;
use case_show::show::{Checksum, Out, Show, answered};
use extract::look_up_record::{look_up, look_up_answer};

// The record's length and checksum, then the number of what looking up says beside it.
fn find(out: &mut Out, x: &[u8], lba: u32) {
    let record = look_up(x, lba);
    record.len().show(out);
    Checksum(record).show(out);
    let number = match look_up_answer(x, lba) {
        Ok(()) => 0,
        Err(r) => r.number(),
    };
    number.show(out)
}

// Answers the line if its command is one of these.
pub fn run(out: &mut Out, l: Line<'_>, x: &[u8], o: &mut [u8]) -> bool {
    match l.word(0) {
        b"extract_check" => extract::check(x).show(out),
        b"extract_find" => find(out, x, l.number(1)),
        b"extract_place" => extract::byte_place(l.number(1), l.number(2)).show(out),
        b"extract_lay" => {
            let (before, record) = case_show::given::halves(l.number(2), x);
            let answer = extract_lay::over::lay_over(before, l.number(1), record, o);
            answered(out, &answer, o);
        }
        _ => return false,
    }
    true
}
