// The careful changes of a disk: its extract collected, the change asked of the library, and its stores put or shown.
use base::Refusal;
use careful_push::between::order_at;
use careful_stores::push_stores::STORES;
use extract::LARGEST;
use station_disk::first_sector::FirstSector;
use station_disk::gather::gather;
use station_disk::{first_sector, open, other_size};
use station_stores::store::Store;
use station_stores::{output, put, save};
use station_words::errors;
use station_words::errors::Told;
use std::fs::File;
use table_push::Request;

// A push, and whether it may overwrite a first sector that is no boot record; or the removal of the partition with a number.
#[derive(Clone, Copy)]
pub enum Wish {
    Push { request: Request, overwrite: bool },
    Remove(usize),
}

// Why a change was not made, which was said on standard error.
#[derive(Clone, Copy)]
pub enum NotDone {
    Refused(Refusal),
    Failed,
}

impl From<Told> for NotDone {
    fn from(_told: Told) -> NotDone {
        NotDone::Failed
    }
}

// A word and its number on standard output, each part whether or not the one before it could be written.
fn say(rt: &HostRuntime, word: &[u8], number: usize) {
    let _ = rt.write_all(word);
    let _ = print!(rt; "{number}");
    let _ = rt.write_all(b"\n");
}

// The last words on standard output: after a push the new partition's number, then that it is done; or what else became of it.
pub fn end(rt: &HostRuntime, made: Result<Option<usize>, NotDone>) {
    match made {
        Ok(number) => {
            if let Some(number) = number {
                say(rt, b"number ", number);
            }
            if println!(rt; "done").is_err() {
                let _ = errors::failed(
                    rt,
                    "the word done cannot be written on standard output: list the disk",
                );
            }
        }
        Err(NotDone::Refused(r)) => {
            say(rt, b"refused ", usize::from(r.number()));
        }
        Err(NotDone::Failed) => {
            let _ = println!(rt; "failed");
        }
    }
}

// Are the records that the change rests on still those that were read?
fn is_unchanged(rt: &HostRuntime, disk: &File, sector: u32, x: &[u8]) -> Result<(), Told> {
    match gather(disk, sector, &mut [0u8; LARGEST]) {
        Ok(y) if *y == *x => Ok(()),
        _ => Err(errors::failed(
            rt,
            "the disk was changed meanwhile by another program; nothing was stored",
        )),
    }
}

// May the extended partition's first sector be written over? A boot record there is read, and nothing is lost with zeros.
fn may_overwrite(rt: &HostRuntime, wish: Wish, x: &[u8]) -> Result<(), Told> {
    if first_sector::state(x) != FirstSector::Other {
        return Ok(());
    }
    first_sector::show_other(rt, x);
    match wish {
        Wish::Push {
            overwrite: false,
            ..
        } => Err(errors::failed(
            rt,
            "a push would overwrite it: keep an image first; --overwrite-first goes on",
        )),
        _ => Ok(()),
    }
}

// The stores of the change, which stand in `out`: how many, or its refusal.
fn stores_of(rt: &HostRuntime, wish: Wish, x: &[u8], out: &mut [u8]) -> Result<usize, NotDone> {
    let made = match wish {
        Wish::Push { request, .. } => careful_push::careful_push(x, request, out),
        Wish::Remove(number) => careful_remove::careful_remove(x, number, out),
    };
    made.map_err(|r| {
        errors::refused(rt, r.number());
        NotDone::Refused(r)
    })
}

// The number that the new partition of a push gets: it stands behind all up to the last EBR at or below its own, which is the first
// store.
fn number_of(x: &[u8], out: &[u8]) -> Option<usize> {
    let Ok(t) = read_table::read_from(x) else {
        return None;
    };
    Some(order_at(t, Store::of(out).lba) + 5)
}

// The change of the disk, or the change shown: the new partition's number after a push.
pub fn on_disk(
    rt: &HostRuntime,
    sector: u32,
    named: bool,
    dry: bool,
    wish: Wish,
) -> Result<Option<usize>, NotDone> {
    let disk = if dry {
        open::to_read(rt)?
    } else {
        open::to_change(rt)?
    };
    let mut space = [0u8; LARGEST];
    let x = gather(&disk, sector, &mut space).map_err(|why| {
        errors::line(rt, why);
        why.refusal().map_or(NotDone::Failed, NotDone::Refused)
    })?;
    other_size::holds(rt, &disk, sector, named, x)?;
    first_sector::show_guid(rt, x);
    may_overwrite(rt, wish, x)?;
    let mut out = [0u8; STORES];
    let n = stores_of(rt, wish, x, &mut out)?;
    if dry {
        output::show_counted(rt, x, &out, n)?;
    } else {
        save::save(rt, x)?;
        is_unchanged(rt, &disk, sector, x)?;
        put::put_counted(rt, &disk, sector, &out, n)?;
    }
    match wish {
        Wish::Push { .. } => Ok(number_of(x, &out)),
        Wish::Remove(_) => Ok(None),
    }
}
