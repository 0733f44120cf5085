// What the program `list` does, and those that run it on other extracts.
// Scope: Numbers to hold (the listing program). Rules: T, by `read_listing`.
// For the programs `list…` alone: `list_input`.
#![tactic(auto)]

use read_full::read_full;
use std::io::Write;

// Reads an extract on standard input and writes the listing of its table.
pub fn list_input(rt: &HostRuntime) {
    // one byte more than the largest extract, so that a longer input is refused and not cut
    let mut input = [0u8; extract::LARGEST + 1];
    // where a read fails, what was read before it is listed
    let (n, read) = read_full(&mut rt.stdin(), &mut input);
    let _ = read;
    let mut text = [0u8; read_listing::LISTING];
    let Ok(length) = read_listing::listing(&input[..n], &mut text) else {
        return;
    };
    if let Some(listing) = text.get(..length) {
        let _ = rt.stdout().write_all(listing);
    }
}
