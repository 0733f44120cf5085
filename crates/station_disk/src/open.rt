// Opening the disk: by its name to read it, by the descriptor that holds its lock to change it.
use read_full::read_full;
use station_words::errors::Told;
use station_words::{args, errors, paths};
use std::fs::{File, OpenOptions};
use std::io;

// What the system tells of a descriptor that holds an exclusive lock.
const LOCK: &[u8] = b"FLOCK  ADVISORY  WRITE";

// Is descriptor 9, which whoever starts the program leaves open on the disk, one that holds an exclusive lock?
// The system tells it of each open descriptor in a file of lines.
fn is_held(rt: &HostRuntime) -> io::Result<bool> {
    let mut file = File::open(rt, "/proc/self/fdinfo/9")?;
    let mut space = [0u8; args::LONGEST];
    // where a read fails, what was read before it is looked at
    let (n, read) = read_full(&mut file, &mut space);
    let _ = read;
    Ok(space[..n].windows(LOCK.len()).any(|part| part == LOCK))
}

// Says why the disk, by its name, cannot be opened.
fn not_opened(rt: &HostRuntime, what: &[u8], why: &io::Error) -> Told {
    errors::system(rt, what, why);
    let mut space = [0u8; args::LONGEST];
    errors::text(rt, "failed: the disk cannot be opened: ");
    errors::text(rt, args::bytes(rt, 2, &mut space));
    errors::text(rt, "\n");
    Told
}

// Opens the disk that the second argument names, for reading alone.
pub fn to_read(rt: &HostRuntime) -> Result<File, Told> {
    let mut space = [0u8; args::LONGEST];
    let path = args::bytes(rt, 2, &mut space);
    paths::open(rt, path).map_err(|why| not_opened(rt, path, &why))
}

// Opens the disk whose lock descriptor 9 holds, to change it.
pub fn to_change(rt: &HostRuntime) -> Result<File, Told> {
    if !is_held(rt).unwrap_or(false) {
        return Err(errors::failed(
            rt,
            "nobody holds the disk's lock: a change is made by the script station, which takes it",
        ));
    }
    OpenOptions::new()
        .read(true)
        .write(true)
        .open(rt, "/proc/self/fd/9")
        .map_err(|why| not_opened(rt, b"the disk", &why))
}
