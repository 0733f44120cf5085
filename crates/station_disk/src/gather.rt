// The extract of a disk, collected by what reading wants.
ghost use Rattle.std.specs.Prelude.{◌≤◌, ◌+◌, ◌*◌, IfOk};
ghost use Rattle.extract.specs.Rules.{most_records};

use crate::sectors;
use crate::sectors::NoExtract;
use extract::LARGEST;
use extract_lay::over::lay_over;
use std::fs::File;

// The extract, so many bytes of x, gets the record of a sector of the disk: its new length.
fn add(disk: &File, sector: u32, lba: u32, x: &mut [u8], n: usize) -> Result<usize, NoExtract>
    ensures { IfOk result (λ m. m ≤ 24 + most_records * 516) }
{
    let mut record = [0u8; 512];
    sectors::read_at(disk, sector, lba, &mut record).map_err(|_| NoExtract::Unread)?;
    let mut y = [0u8; LARGEST];
    match lay_over(x.get(..n).unwrap_or(x), lba, &record, &mut y) {
        Ok(m) => {
            // only the new extract, not all of y: a disk has some records, and y has room for the most
            for (to, from) in x.iter_mut().zip(y.get(..m).unwrap_or(&y)) {
                *to = *from;
            }
            Ok(m)
        }
        Err(_) => Err(NoExtract::NoEnd),
    }
}

// The extract of the disk, at the start of x. What is wanted is added until nothing is: two more records than the logical partitions at
// most.
pub fn gather<'a>(disk: &File, sector: u32, x: &'a mut [u8]) -> Result<&'a [u8], NoExtract> {
    let size = sectors::size_of(disk, sector)?;
    if x.len() < 24 {
        return Err(NoExtract::NoEnd);
    }
    extract::header_out::put_header(x, sector, size, 0);
    let mut n = 24;
    for _ in 0..extract::RECORDS {
        match read_table::wanted(x.get(..n).unwrap_or(x)) {
            Ok(Some(lba)) => n = add(disk, sector, lba, x, n)?,
            Ok(None) => return Ok(x.get(..n).unwrap_or(x)),
            Err(_) => break,
        }
    }
    Err(NoExtract::NoEnd)
}
