// The extract kept in a new file before a change.
use station_words::errors::Told;
use station_words::{args, errors, paths};
use std::fs::{File, OpenOptions};
use std::io;
use std::io::Write;

// Opens the folder that a path's file stands in.
fn open_folder(rt: &HostRuntime, path: &[u8]) -> io::Result<File> {
    match path.iter().rposition(|b| *b == b'/') {
        Some(slash) => paths::open(rt, &path[..=slash]),
        None => File::open(rt, "."),
    }
}

// The bytes into the file, flushed; then it is closed.
fn fill(mut file: File, x: &[u8]) -> io::Result<()> {
    file.write_all(x)?;
    file.sync_all()
}

// The bytes into a new file; then the folder is flushed, so that it keeps the new name.
fn keep(rt: &HostRuntime, path: &[u8], x: &[u8]) -> io::Result<()> {
    let file = OpenOptions::new()
        .write(true)
        .create_new(true)
        .open(rt, paths::name(path)?)?;
    fill(file, x)?;
    open_folder(rt, path)?.sync_all()
}

// Writes the extract to the new file that --save names, and flushes it. Where the option is not there, nothing is to be done.
pub fn save(rt: &HostRuntime, x: &[u8]) -> Result<(), Told> {
    let Some(i) = args::find(rt, 4, "--save") else {
        return Ok(());
    };
    let mut space = [0u8; args::LONGEST];
    let path = args::bytes(rt, i + 1, &mut space);
    keep(rt, path, x).map_err(|why| {
        errors::system(rt, path, &why);
        errors::failed(
            rt,
            "the extract cannot be kept in a new file; nothing was stored on the disk",
        )
    })
}
