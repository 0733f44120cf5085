// Free runs and places. The table is read from X; its alignment, geometry, count and D are the first six words of the line.
use case_show::line::Line;
use case_show::show::{Out, Show};
use table::MBR;
use table_free::Run;
use table_place::{places, sizes};

// Start and length of each run.
pub fn show(out: &mut Out, runs: &[Run]) {
    for r in runs {
        r.start.show(out);
        r.length.show(out);
    }
}

// How many runs there are, then start and length of each.
fn free(out: &mut Out, t: MBR) {
    match table_free::search::find_free_sectors(t) {
        Ok(found) => {
            found.count.show(out);
            show(out, &found.at[..found.count])
        }
        Err(r) => r.show(out),
    }
}

fn on_table(out: &mut Out, l: Line<'_>, t: MBR) -> bool {
    match l.word(0) {
        b"free" => free(out, t),
        b"first_place" => places::find_first_place(t, l.number(7)).show(out),
        b"last_place" => places::find_last_place(t, l.number(7)).show(out),
        b"best_place" => places::find_optimal_place(t, l.number(7)).show(out),
        b"most" => sizes::get_maximum_partition_size(t).show(out),
        b"most_for" => sizes::get_maximum_partition_size_for(t, l.number(7)).show(out),
        b"free_into" => crate::on_lent::free_into(out, l, t),
        b"update_lent" => crate::on_lent::update_lent(out, l, t),
        _ => return false,
    }
    true
}

// The command on the table that X reads as. Out of line, so that a line of another command makes no room for a table.
#[inline(never)]
fn on_read(out: &mut Out, l: Line<'_>, x: &[u8]) -> bool {
    match read_table::read_from(x) {
        Ok(read) => on_table(out, l, case_show::given::table(l, read)),
        Err(r) => {
            r.show(out);
            true
        }
    }
}

// Answers the line if its command is one of these.
pub fn run(out: &mut Out, l: Line<'_>, x: &[u8], _o: &mut [u8]) -> bool {
    match l.word(0) {
        b"free"
        | b"first_place"
        | b"last_place"
        | b"best_place"
        | b"most"
        | b"most_for"
        | b"free_into"
        | b"update_lent" => on_read(out, l, x),
        _ => false,
    }
}
