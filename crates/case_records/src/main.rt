// A program that answers the cases of records and extracts.
// Scope: modules 1 to 3, run and compared; the cases stand on standard input, second/answers.py has their commands.
#![tactic(auto)]

use std::io;

fn main(rt: HostRuntime) -> io::Result<()> {
    case_show::cases::run(&rt, case_answers::run)
}
