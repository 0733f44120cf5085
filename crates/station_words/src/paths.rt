// Files by the bytes of their names. A name that is no UTF-8 names none here.
use std::fs::File;
use std::{io, str};

// The system's number for a text that is spelt wrong, EILSEQ.
const MISSPELT: i32 = 84;

// The name as text.
pub fn name(path: &[u8]) -> io::Result<&str> {
    match str::from_utf8(path) {
        Ok(text) => Ok(text),
        Err(_) => Err(io::Error::from_raw_os_error(MISSPELT)),
    }
}

// Opens the file for reading alone.
pub fn open(rt: &HostRuntime, path: &[u8]) -> io::Result<File> {
    File::open(rt, name(path)?)
}
