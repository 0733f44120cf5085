// A program: reads an extract on standard input and writes the listing of its table.
// Scope: Numbers to hold (the listing program, for K).
#![tactic(auto)]

fn main(rt: HostRuntime) {
    list_print::list_input(&rt);
}
