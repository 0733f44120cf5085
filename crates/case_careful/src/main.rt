// A program that answers the cases of careful changes.
// Scope: Careful changes, run and compared; the cases stand on standard input, second/answers.py has their commands.
#![tactic(auto)]

mod on_careful;

use std::io;

fn main(rt: HostRuntime) -> io::Result<()> {
    case_show::cases::run(&rt, on_careful::run)
}
