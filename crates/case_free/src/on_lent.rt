// The two forms that take a reference, each on what this program lends.
use case_show::line::Line;
use case_show::show::{Out, Show};
use table::MBR;
use table_free::{RUNS, Run};

// The number of runs, then start and length of each of the thirty lent, after a refusal too. Thirty runs of the line's start and
// length are lent.
pub fn free_into(out: &mut Out, l: Line<'_>, t: MBR) {
    let mark = Run {
        start: l.number(7),
        length: l.number(8),
    };
    let mut runs = [mark; RUNS];
    table_lent::lent_list::free_into(t, &mut runs).show(out);
    crate::on_free::show(out, &runs)
}

// The logical partition of a place from 0 on is lent: the partition afterwards, after a refusal too.
pub fn update_lent(out: &mut Out, l: Line<'_>, t: MBR) {
    let mut p = case_show::given::logical(&t, l.number(7));
    table_lent::update::update_chs(&mut p, t.cylinders, t.heads, t.sectors).show(out);
    p.show(out)
}
