// The cases of MBR headers.
use case_show::line::Line;
use case_show::show::{Out, Show, text};
use record_mbr::{MBRHeader, Protection};

// The header in the line's words: disk signature, copy mark and boot signature byte by byte, then four entries. The code is
// the start of X.
pub fn given(l: Line<'_>, x: &[u8]) -> MBRHeader {
    MBRHeader {
        bootstrap_code: crate::on_ebr::part(x, 0),
        disk_signature: l.four(1),
        copy_protected: [l.number(5), l.number(6)],
        partition_1: crate::on_entry::given(l, 9),
        partition_2: crate::on_entry::given(l, 19),
        partition_3: crate::on_entry::given(l, 29),
        partition_4: crate::on_entry::given(l, 39),
        boot_signature: [l.number(7), l.number(8)],
    }
}

// Answers the line if its command is one of these.
pub fn run(out: &mut Out, l: Line<'_>, x: &[u8]) -> bool {
    match l.word(0) {
        b"mbr_new" => MBRHeader::new(l.four(1)).show(out),
        b"mbr_get" => given(l, x).get(l.number(49)).show(out),
        b"mbr_extended" => given(l, x).get_extended_partition().show(out),
        b"mbr_copy" => match given(l, x).is_copy_protected() {
            Protection::No => false.show(out),
            Protection::Yes => true.show(out),
            Protection::Neither => text(out, b" neither"),
        },
        _ => return false,
    }
    true
}
