// A program that answers the cases of writing.
// Scope: module 8, run and compared; the cases stand on standard input, second/answers.py has their commands.
#![tactic(auto)]

mod edit;
mod on_write;

use std::io;

fn main(rt: HostRuntime) -> io::Result<()> {
    case_show::cases::run(&rt, on_write::run)
}
