// The size of an open disk or image, and its sectors.
use base::Refusal;
use std::fs::File;
use std::io;
use std::io::{ErrorKind, Seek, SeekFrom};
use std::os::unix::fs::FileExt;
use thiserror::Error;

// Why there is no extract of a disk.
#[derive(Clone, Copy, PartialEq, Eq, Debug, Error)]
pub enum NoExtract {
    #[error("refused 1: the size is no whole number of sectors of this sector size")]
    Odd,
    #[error("refused 1: more than 4294967295 sectors, and the table has no room for that")]
    Many,
    #[error("failed: the disk's size cannot be told")]
    NoSize,
    #[error("failed: this is a directory, no disk and no image")]
    Directory,
    #[error("failed: this is a pipe or a terminal, no disk and no image")]
    Pipe,
    #[error("failed: this is a device without an end, no disk")]
    Endless,
    #[error("failed: a sector of the disk cannot be read")]
    Unread,
    #[error("failed: the records of the disk cannot be collected")]
    NoEnd,
}

impl NoExtract {
    // The refusal that it is, if it is one and no failure.
    pub fn refusal(self) -> Option<Refusal> {
        match self {
            NoExtract::Odd | NoExtract::Many => Some(Refusal::BadExtract),
            _ => None,
        }
    }
}

// The number of sectors of a size in bytes.
fn counted(n: u64, sector: u32) -> Result<u32, NoExtract> {
    let size = u64::from(sector);
    if size == 0 || n % size != 0 {
        return Err(NoExtract::Odd);
    }
    u32::try_from(n / size).map_err(|_| NoExtract::Many)
}

// How many bytes the start of a disk gives, or why it gives none.
fn first_byte(disk: &File) -> io::Result<usize> {
    disk.read_at(&mut [0u8; 1], 0)
}

// The place of the disk's end, in bytes.
fn end(mut disk: &File) -> io::Result<u64> {
    disk.seek(SeekFrom::End(0))
}

// The size of what can be read from its start on, or cannot.
fn measured(disk: &File, sector: u32, got: usize) -> Result<u32, NoExtract> {
    match end(disk) {
        Ok(0) if 0 < got => Err(NoExtract::Endless),
        Ok(n) => counted(n, sector),
        Err(_) => Err(NoExtract::NoSize),
    }
}

// The size of the disk in sectors.
pub fn size_of(disk: &File, sector: u32) -> Result<u32, NoExtract> {
    match first_byte(disk) {
        Ok(got) => measured(disk, sector, got),
        Err(why) => match why.kind() {
            ErrorKind::IsADirectory => Err(NoExtract::Directory),
            ErrorKind::NotSeekable => Err(NoExtract::Pipe),
            _ => measured(disk, sector, 0),
        },
    }
}

// Where a sector starts, in bytes.
pub fn offset(sector: u32, lba: u32) -> io::Result<u64> {
    extract::byte_place(sector, lba).map_err(|_| io::Error::from(ErrorKind::InvalidInput))
}

// Reads the sector from its start on, as many bytes as `d` has; a read that gives fewer has failed. For no byte nothing is read.
pub fn read_at(disk: &File, sector: u32, lba: u32, d: &mut [u8]) -> io::Result<()> {
    let at = offset(sector, lba)?;
    if d.is_empty() {
        return Ok(());
    }
    match disk.read_at(d, at)? == d.len() {
        true => Ok(()),
        false => Err(io::Error::from(ErrorKind::UnexpectedEof)),
    }
}

#[cfg(test)]
mod tests {
    use super::*;
    use std::fs::OpenOptions;
    use std::test::Fail;
    use std::{env, fs, process};

    #[test]
    fn no_byte_is_read(rt: HostRuntime) -> Result<(), Fail> {
        let name = format!(in rt.alloc(); "crumbvessel-read-at-{}", process::id(rt.process()))?;
        let path = env::temp_dir(&rt)?.join(rt.alloc(), name.as_str())?;
        let disk = OpenOptions::new()
            .write(true)
            .create_new(true)
            .open(&rt, &path)?;
        fs::remove_file(&rt, &path)?;
        assert!(rt; read_at(&disk, 512, 0, &mut [0; 1]).is_err());
        assert!(rt; read_at(&disk, 512, 0, &mut []).is_ok());
        Ok(())
    }
}
