// Writing a table, or its header alone, over an extract. The last bytes of X, as many as the line says, are the old extract;
// the table is read from what is before and then edited.
use case_show::line::Line;
use case_show::show::{Out, Show, answered};
use table::MBR;

// The answer, O and the table, refused or not.
fn write_table(out: &mut Out, mut t: MBR, x: &[u8], o: &mut [u8]) {
    let written = write_table::write_into(&mut t, x, o);
    answered(out, &written, o);
    t.show(out)
}

fn write_header(out: &mut Out, t: MBR, x: &[u8], o: &mut [u8]) {
    let written = write_table::write_header(t.header, x, o);
    answered(out, &written, o)
}

// The command on the table that the start of X reads as, as the line edits it.
fn on_handed<F>(out: &mut Out, l: Line<'_>, x: &[u8], o: &mut [u8], write: F)
where
    F: Fn(&mut Out, MBR, &[u8], &mut [u8]),
    requires { F.IsAlwaysCallable write }
{
    let (before, old) = case_show::given::halves(l.number(7), x);
    match read_table::read_from(before) {
        Ok(read) => write(out, crate::edit::handed(l, read), old, o),
        Err(r) => r.show(out),
    }
}

// The table that the first bytes of O, so many, read as.
fn read_o(out: &mut Out, o: &[u8], n: usize) {
    read_table::read_from(o.get(..n).unwrap_or(o)).show(out)
}

// Answers the line if its command is one of these.
pub fn run(out: &mut Out, l: Line<'_>, x: &[u8], o: &mut [u8]) -> bool {
    match l.word(0) {
        b"write_table" => on_handed(out, l, x, o, write_table),
        b"write_header" => on_handed(out, l, x, o, write_header),
        b"read_o" => read_o(out, o, l.number(1)),
        _ => return false,
    }
    true
}
