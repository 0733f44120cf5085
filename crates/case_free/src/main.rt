// A program that answers the cases of free runs, places and the two forms that take a reference.
// Scope: module 6, run and compared; the cases stand on standard input, second/answers.py has their commands.
#![tactic(auto)]

mod on_free;
mod on_lent;

use std::io;

fn main(rt: HostRuntime) -> io::Result<()> {
    case_show::cases::run(&rt, on_free::run)
}
