// Lookup and small changes of a table, and push. The table is read from X; its alignment, geometry, count and D are the
// first six words of the line.
use base::Refusal;
use case_show::line::Line;
use case_show::show::{Out, Show, text};
use record_mbr::MBRHeader;
use table::{LogicalPartition, MBR};
use table_lookup::at_sector::find_at_sector;
use table_push::push;
use table_remove::at_sector::remove_at_sector;

fn removed(out: &mut Out, l: Result<LogicalPartition, Refusal>) {
    if l.is_ok() {
        text(out, b" done");
    }
    l.show(out)
}

// The logical partition of a place from 0 on, with another geometry, after a refusal as it was.
fn update(out: &mut Out, p: LogicalPartition, t: &MBR) {
    let updated = table_push::update_chs(p, t.cylinders, t.heads, t.sectors);
    updated.map(|_| ()).show(out);
    updated.unwrap_or(p).show(out)
}

// The command on a table; what changes it writes the table behind the answer, refused or not, and only `push` not after a refusal.
fn on_table(out: &mut Out, l: Line<'_>, mut t: MBR) -> bool {
    match l.word(0) {
        b"get" => table_lookup::get(t, l.number(7)).show(out),
        b"len" => table_lookup::len(t).show(out),
        b"find" => find_at_sector(t, l.number(7)).show(out),
        b"remove" => {
            removed(out, table_remove::remove(&mut t, l.number(7)));
            t.show(out);
        }
        b"remove_at" => {
            remove_at_sector(&mut t, l.number(7)).show(out);
            t.show(out);
        }
        b"check_geometry" => table_push::check_geometry(t).show(out),
        b"cylinder_size" => table_push::get_cylinder_size(t).show(out),
        b"update_chs" => update(out, case_show::given::logical(&t, l.number(7)), &t),
        b"push" => {
            let number = push(&mut t, l.number(7), l.number(8), l.number(9));
            number.show(out);
            if number.is_ok() {
                t.show(out);
            }
        }
        b"push_all" => {
            push(&mut t, l.number(7), l.number(8), l.number(9)).show(out);
            t.show(out);
        }
        _ => return false,
    }
    true
}

// The table that stands for one that is not read.
fn no_table() -> MBR {
    MBR {
        sector_size: 0,
        header: MBRHeader::new([0; 4]),
        logical_partitions: [LogicalPartition::empty(); table::LOGICALS],
        count: 0,
        align: MBR::DEFAULT_ALIGN,
        cylinders: 0,
        heads: 0,
        sectors: 0,
        disk_size: 0,
    }
}

// The last bytes of X, as many as the line says, are the second extract; the table is read from what is before, and is
// empty where that is refused.
fn update_from(out: &mut Out, l: Line<'_>, x: &[u8]) {
    let (before, disk) = case_show::given::halves(l.number(7), x);
    let read = read_table::read_from(before).unwrap_or(no_table());
    let mut t = case_show::given::table(l, read);
    table_new::update_from(&mut t, disk).show(out);
    t.show(out)
}

// Out of line, as the next, so that a line of another command makes no room for a table.
#[inline(never)]
fn new_from(out: &mut Out, l: Line<'_>, x: &[u8]) {
    table_new::new_from(x, l.four(1)).show(out);
}

// The command on the table that X reads as.
#[inline(never)]
fn on_read(out: &mut Out, l: Line<'_>, x: &[u8]) -> bool {
    match read_table::read_from(x) {
        Ok(read) => on_table(out, l, case_show::given::table(l, read)),
        Err(r) => {
            r.show(out);
            true
        }
    }
}

// Answers the line if its command is one of these.
pub fn run(out: &mut Out, l: Line<'_>, x: &[u8], _o: &mut [u8]) -> bool {
    match l.word(0) {
        b"new_from" => new_from(out, l, x),
        b"update_from" => update_from(out, l, x),
        b"get"
        | b"len"
        | b"find"
        | b"remove"
        | b"remove_at"
        | b"check_geometry"
        | b"cylinder_size"
        | b"update_chs"
        | b"push"
        | b"push_all" => return on_read(out, l, x),
        _ => return false,
    }
    true
}
