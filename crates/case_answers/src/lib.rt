// The answer to one case of records or extracts, by its command.
// Scope: modules 1 to 3, run and compared.
// For the program `case_records` alone: `run`.
#![tactic(auto)]

pub mod on_chs;
pub mod on_ebr;
pub mod on_entry;
pub mod on_extract;
pub mod on_mbr;
pub mod on_record;

use case_show::line::Line;
use case_show::show::Out;

// Answers the line; false if it knows no such command.
pub fn run(out: &mut Out, l: Line<'_>, x: &[u8], o: &mut [u8]) -> bool {
    on_chs::run(out, l)
        || on_entry::run(out, l)
        || on_mbr::run(out, l, x)
        || on_record::run(out, l, x, o)
        || on_ebr::run(out, l, x, o)
        || on_extract::run(out, l, x, o)
}
