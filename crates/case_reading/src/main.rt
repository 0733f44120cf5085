// A program that answers the cases of reading.
// Scope: module 4, run and compared; the cases stand on standard input, second/answers.py has their commands.
#![tactic(auto)]

mod on_read;

use std::io;

fn main(rt: HostRuntime) -> io::Result<()> {
    case_show::cases::run(&rt, on_read::run)
}
