// What is shown of a change of no stores, and of one of three.
// Scope: none, it is ours. The station's own changes have one or two stores.
#![tactic(auto)]

use careful_stores::STORE;
use extract::look_up_record::look_up;
use read_full::read_full;
use station_stores::output;

// The record of an extract, zeros where it has none.
fn record(x: &[u8], lba: u32) -> [u8; 512] {
    let mut r = [0u8; 512];
    for (to, from) in r.iter_mut().zip(look_up(x, lba)) {
        *to = *from;
    }
    r
}

// A store of a record in which an entry's type, start and sectors are put at a place.
fn store(lba: u32, mut r: [u8; 512], at: usize, sys: u8, start: u32, sectors: u32) -> [u8; STORE] {
    if let Some(e) = r.get_mut(at..) {
        if 16 <= e.len() {
            e[4] = sys;
            base::put32(e, 8, start);
            base::put32(e, 12, sectors);
        }
    }
    let mut s = [0u8; STORE];
    base::put32(&mut s, 0, lba);
    s[4..].copy_from_slice(&r);
    s
}

// The extract on standard input, unchanged; then with a second primary partition, and with a second logical one, to which the
// first EBR leads.
fn main(rt: HostRuntime) {
    let mut input = [0u8; extract::LARGEST];
    let (n, _) = read_full(&mut rt.stdin(), &mut input);
    let x = &input[..n];
    let _ = output::show_change(&rt, x, &[]);
    let mut new = [0u8; 512];
    new[510] = 0x55;
    new[511] = 0xAA;
    let stores = [
        store(0, record(x, 0), 462, 0x83, 3000, 1000),
        store(4096, record(x, 4096), 462, 0x05, 4096, 4096),
        store(8192, new, 446, 0x83, 3000, 1000),
    ];
    let _ = output::show_change(&rt, x, &stores);
}
