// Stores put on an open disk, each flushed to the medium before the next one, and read back.
use crate::store;
use crate::store::Store;
use careful_stores::STORE;
use station_disk::sectors;
use station_words::errors;
use station_words::errors::Told;
use std::fs::File;
use std::io;
use std::os::unix::fs::FileExt;

// The bytes of the largest sector.
const LARGEST: usize = 4096;

// What is said of a write that wrote nothing.
const NOT_WRITTEN: &str = "a sector of the disk cannot be written";

// Puts the sector's old bytes back after a write that was cut short, and says what became of it.
fn undo(rt: &HostRuntime, disk: &File, at: u64, old: &[u8]) -> Told {
    if disk.write_at(old, at).unwrap_or(0) != old.len() {
        return errors::failed(
            rt,
            "a write was cut short, and its sector cannot be put back: list the disk before anything else",
        );
    }
    if disk.sync_all().is_err() {
        return errors::failed(
            rt,
            "a write was cut short; its sector was put back, but not flushed",
        );
    }
    errors::failed(rt, "a write was cut short; its sector was put back")
}

// Writes the sector in one call, at its place.
fn write_whole(
    rt: &HostRuntime,
    disk: &File,
    place: io::Result<u64>,
    old: &[u8],
    new: &[u8],
) -> Result<(), Told> {
    let Ok(at) = place else {
        return Err(errors::failed(rt, NOT_WRITTEN));
    };
    match disk.write_at(new, at).unwrap_or(0) {
        n if n == new.len() => Ok(()),
        0 => Err(errors::failed(rt, NOT_WRITTEN)),
        _ => Err(undo(rt, disk, at, old)),
    }
}

// Is what was written there?
fn is_there(disk: &File, sector: u32, lba: u32, new: &[u8]) -> bool {
    let mut space = [0u8; LARGEST];
    let Some(back) = space.get_mut(..new.len()) else {
        return false;
    };
    sectors::read_at(disk, sector, lba, back).is_ok() && *back == *new
}

// One store: its record over the first bytes of its sector; the rest of the sector stays.
fn put(rt: &HostRuntime, disk: &File, sector: u32, s: Store<'_>) -> Result<(), Told> {
    let size = LARGEST.min(sector as usize);
    let mut old = [0u8; LARGEST];
    if sectors::read_at(disk, sector, s.lba, &mut old[..size]).is_err() {
        return Err(errors::failed(rt, "a sector of the disk cannot be read"));
    }
    let mut new = old;
    for (to, from) in new.iter_mut().zip(s.record) {
        *to = *from;
    }
    write_whole(
        rt,
        disk,
        sectors::offset(sector, s.lba),
        &old[..size],
        &new[..size],
    )?;
    if disk.sync_all().is_err() {
        return Err(errors::failed(rt, "the disk cannot be flushed"));
    }
    if !is_there(disk, sector, s.lba, &new[..size]) {
        return Err(errors::failed(rt, "a sector does not read back as it was written"));
    }
    Ok(())
}

// One or two stores in the bytes of a change, in their order; none where fewer are there.
pub fn put_counted(
    rt: &HostRuntime,
    disk: &File,
    sector: u32,
    out: &[u8],
    n: usize,
) -> Result<(), Told> {
    let stores = store::all(out, n);
    if stores.len() < store::count(n) {
        return Err(errors::failed(rt, NOT_WRITTEN));
    }
    for bytes in stores {
        put(rt, disk, sector, Store::of(bytes))?;
    }
    Ok(())
}

// The stores, in their order.
pub fn put_all(
    rt: &HostRuntime,
    disk: &File,
    sector: u32,
    stores: &[[u8; STORE]],
) -> Result<(), Told> {
    for bytes in stores {
        put_counted(rt, disk, sector, bytes, 1)?;
    }
    Ok(())
}

#[cfg(test)]
mod tests {
    use super::*;
    use std::fs::OpenOptions;
    use std::test::Fail;
    use std::{env, fs, process};

    // A store of a record of one byte, for an LBA below 256.
    fn store(lba: u8, byte: u8) -> [u8; STORE] {
        let mut s = [byte; STORE];
        s[..4].copy_from_slice(&[lba, 0, 0, 0]);
        s
    }

    #[test]
    fn three_in_their_order(rt: HostRuntime) -> Result<(), Fail> {
        let name = format!(in rt.alloc(); "crumbvessel-put-all-{}", process::id(rt.process()))?;
        let path = env::temp_dir(&rt)?.join(rt.alloc(), name.as_str())?;
        let disk = OpenOptions::new()
            .read(true)
            .write(true)
            .create_new(true)
            .open(&rt, &path)?;
        fs::remove_file(&rt, &path)?;
        disk.set_len(4 * 512)?;
        assert_eq!(rt; put_all(&rt, &disk, 512, &[]), Ok(()));
        let stores = [store(1, 17), store(3, 34), store(3, 51)];
        assert_eq!(rt; put_all(&rt, &disk, 512, &stores), Ok(()));
        for (lba, byte) in [(0, 0), (1, 17), (2, 0), (3, 51)] {
            let mut back = [9u8; 512];
            sectors::read_at(&disk, 512, lba, &mut back)?;
            assert_eq!(rt; back, [byte; 512], "sector {lba}");
        }
        Ok(())
    }
}
