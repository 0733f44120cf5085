// Whether another sector size than the one taken reads the chain.
use crate::first_sector;
use crate::first_sector::FirstSector;
use crate::gather::gather;
use station_words::errors;
use station_words::errors::Told;
use std::fs::File;

// Does the extract read as a table with a chain, in an extended partition that the disk has room for?
fn reads_chain(x: &[u8]) -> bool {
    first_sector::fits(x)
        && read_table::read_from(x).is_ok()
        && first_sector::state(x) == FirstSector::Reads
}

// Does the disk have a chain when it is read with sectors of this size?
fn has_chain(disk: &File, sector: u32) -> bool {
    match gather(disk, sector, &mut [0u8; extract::LARGEST]) {
        Ok(x) => reads_chain(x),
        Err(_) => false,
    }
}

// Another size with which a chain is read.
fn better(disk: &File, sector: u32) -> Option<u32> {
    for other in [512, 1024, 2048, 4096] {
        if other != sector && has_chain(disk, other) {
            return Some(other);
        }
    }
    None
}

// May the table be read with sectors of this size? Not where the operator did not name it, it has no chain and with another size it
// has one.
pub fn holds(
    rt: &HostRuntime,
    disk: &File,
    sector: u32,
    named: bool,
    x: &[u8],
) -> Result<(), Told> {
    if named
        || matches!(
            first_sector::state(x),
            FirstSector::NoChain | FirstSector::Reads
        )
    {
        return Ok(());
    }
    match better(disk, sector) {
        None => Ok(()),
        Some(other) => {
            errors::with_number(
                rt,
                "failed: with sectors of ",
                sector,
                " bytes the extended partition has no chain, with ",
            );
            errors::with_number(
                rt,
                "",
                other,
                " it has one: name the sector size by --sector\n",
            );
            Err(Told)
        }
    }
}
