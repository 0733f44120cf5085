// What a command writes on standard output: a listing, and what a change would do.
use crate::store;
use crate::store::Store;
use careful_stores::STORE;
use extract::LARGEST;
use extract_lay::over::lay_over;
use station_words::errors::Told;
use station_words::{errors, hex};
use std::io;

// What is said where standard output cannot be written.
fn told(rt: &HostRuntime, written: io::Result<()>) -> Result<(), Told> {
    written.map_err(|_| errors::failed(rt, "standard output cannot be written"))
}

// The bytes on standard output.
pub fn show(rt: &HostRuntime, s: &[u8]) -> Result<(), Told> {
    told(rt, rt.write_all(s))
}

// The listing of the table of an extract.
pub fn show_listing(rt: &HostRuntime, x: &[u8]) -> Result<(), Told> {
    let mut text = [0u8; read_listing::LISTING];
    match read_listing::listing(x, &mut text) {
        Ok(n) => show(rt, text.get(..n).unwrap_or(&text)),
        Err(r) => {
            errors::refused(rt, r.number());
            Err(Told)
        }
    }
}

// The lines of a store's record, of 16 bytes with their offset in front, that are not all zeros.
fn write_store(rt: &HostRuntime, s: Store<'_>) -> io::Result<()> {
    let lba = s.lba;
    rt.write_all(b"store ")?;
    print!(rt; "{lba}")?;
    rt.write_all(b"\n")?;
    for (i, line) in s.record.chunks(16).enumerate() {
        if line.iter().any(|b| *b != 0) {
            let at = i.saturating_mul(16);
            print!(rt; "{at:03x}")?;
            hex::line(rt, line)?;
        }
    }
    Ok(())
}

// The extract with the stores laid over it, one after the other, and its listing; an empty one where one cannot be laid.
fn show_after(rt: &HostRuntime, x: &[u8], stores: &[[u8; STORE]]) -> Result<(), Told> {
    let Some((first, others)) = stores.split_first() else {
        return show_listing(rt, x);
    };
    let s = Store::of(first);
    let mut y = [0u8; LARGEST];
    let n = lay_over(x, s.lba, s.record, &mut y).unwrap_or(0);
    show_after(rt, y.get(..n).unwrap_or(&y), others)
}

// The table before a change, its one or two stores and the table after it.
pub fn show_counted(rt: &HostRuntime, x: &[u8], out: &[u8], n: usize) -> Result<(), Told> {
    let stores = store::all(out, n);
    show(rt, b"before\n")?;
    show_listing(rt, x)?;
    for bytes in stores {
        told(rt, write_store(rt, Store::of(bytes)))?;
    }
    show(rt, b"after\n")?;
    // where a store is missing, nothing is read
    let whole = stores.len() == store::count(n);
    show_after(rt, if whole { x } else { &[] }, stores)
}

// The table before a change, its stores and the table after it.
pub fn show_change(rt: &HostRuntime, x: &[u8], stores: &[[u8; STORE]]) -> Result<(), Told> {
    show(rt, b"before\n")?;
    show_listing(rt, x)?;
    for bytes in stores {
        told(rt, write_store(rt, Store::of(bytes)))?;
    }
    show(rt, b"after\n")?;
    show_after(rt, x, stores)
}
