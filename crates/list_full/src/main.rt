// The program `list`, run on a disk with as many logical partitions as can be, types and flags in hex capitals.
// Scope: Numbers to hold (the listing program: two hex digits, capitals).
#![tactic(auto)]

fn main(rt: HostRuntime) {
    list_print::list_input(&rt);
}
