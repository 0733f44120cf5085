// The program `list`, run on a disk that reading refuses: one logical partition too many.
// Scope: Numbers to hold (the listing program: a refusal prints its number only).
#![tactic(auto)]

fn main(rt: HostRuntime) {
    list_print::list_input(&rt);
}
