// A program that answers the cases of lookup, removal, new tables and push.
// Scope: modules 5 and 7, run and compared; the cases stand on standard input, second/answers.py has their commands.
#![tactic(auto)]

mod on_table;

use std::io;

fn main(rt: HostRuntime) -> io::Result<()> {
    case_show::cases::run(&rt, on_table::run)
}
