// Careful push and careful removal on the extract in X, with O lent for the stores.
use case_show::line::Line;
use case_show::show::{Out, answered};
use table_push::{Geometry, Request};

fn request(l: Line<'_>) -> Request {
    Request {
        align: l.number(1),
        geometry: Geometry {
            cylinders: l.number(2),
            heads: l.number(3),
            sectors: l.number(4),
        },
        sys: l.number(5),
        start: l.number(6),
        sectors: l.number(7),
    }
}

// Answers the line if its command is one of these: the number of stores, or the refusal; then O's length and checksum.
pub fn run(out: &mut Out, l: Line<'_>, x: &[u8], o: &mut [u8]) -> bool {
    let stores = match l.word(0) {
        b"careful_push" => careful_push::careful_push(x, request(l), o),
        b"careful_remove" => careful_remove::careful_remove(x, l.number(1), o),
        _ => return false,
    };
    answered(out, &stores, o);
    true
}
