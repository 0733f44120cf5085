// The extract: a header, n LBAs, n records; the disk that it stands for.
// Scope: The extract (its rules, LBAs ascend, looking a record up, a disk after stores); module 3. Rules: X.
// For callers: `check`, `look_up_record::look_up`, `look_up_record::look_up_answer`, `byte_place`.
#![tactic(auto)]

pub mod header_out;
pub mod header_rules;
pub mod list_out;
pub mod look_up_record;
pub mod records_out;

ghost use Rattle.std.specs.Prelude.{◌≡◌, ◌+◌, ◌*◌, ◌≤◌, ◌<◌, length};
ghost use Rattle.base.specs.Said.{answered, refusal};
ghost use Rattle.extract.specs.Extract.{Good, word, count, lbas_from, lba_at, lba_checks, record_at, record_of};
ghost use Rattle.base.specs.Bytes.{Bytes};
ghost use Rattle.base.specs.Checks.{first-fail};
ghost use Rattle.extract.specs.ListSpot.{SpotOf};
ghost use Rattle.extract.specs.Answers.{check_says, place_says};
ghost use Rattle.extract.specs.Rules.{most_records};

use base::Refusal;

// The most records of an extract.
pub const RECORDS: usize = 64;

// The bytes of an extract with so many.
pub const LARGEST: usize = 24 + 516 * RECORDS;

// What the header of a checked extract says.
#[derive(Clone, Copy)]
pub struct Extract {
    pub sector_size: u32,
    pub disk_size: u32,
    pub count: usize,
}

// The word at a byte offset of the extract.
fn word_at(x: &[u8], at: usize) -> u32
    requires { at + 4 ≤ length x.now }
    ensures { result ≡ word x.now at }
{
    base::get32(x, at)
}

// Where an LBA starts on the disk, in bytes: the LBA shifted by the trailing zeros of the sector size.
pub fn byte_place(sector_size: u32, lba: u32) -> Result<u64, Refusal>
    ensures { answered result ≡ place_says sector_size lba }
{
    if !crate::header_rules::size_ok(sector_size) {
        return Err(Refusal::BadExtract);
    }
    Ok((lba as u64) << sector_size.trailing_zeros())
}

// The rules of the n LBAs: they ascend strictly, and are below the end of the disk. Each is read once.
fn lba_rules(x: &[u8], n: usize, disk: u32) -> Result<(), Refusal>
    requires { (n ≤ most_records) × (24 + n * 4 ≤ length x.now) }
    ensures { refusal result ≡ first-fail (lba_checks disk (lbas_from x.now 0 n)) }
{
    let mut next: u64 = 0;
    // By number: the LBAs are bytes of the extract and no slice of numbers.
    for i in 0..n {
        let lba = word_at(x, 24 + i * 4) as u64;
        if lba < next {
            return Err(Refusal::BadExtract);
        }
        next = lba + 1;
    }
    if (disk as u64) < next {
        return Err(Refusal::BadExtract);
    }
    Ok(())
}

// The rules of an extract, in their order. Each byte of the header and of the LBA list is read once.
pub fn check(x: &[u8]) -> Result<Extract, Refusal>
    ensures result_value { answered result ≡ check_says x.now }
    ensures bytes { Bytes x.now }
{
    let long = x.len();
    if long < 24 {
        return Err(Refusal::BadExtract);
    }
    let size = word_at(x, 0);
    let disk = word_at(x, 4);
    let n = word_at(x, 8) as usize;
    let list = word_at(x, 12) as usize;
    let records = word_at(x, 16) as usize;
    let total = word_at(x, 20) as usize;
    crate::header_rules::header_rules(long, size, n, list, records, total)?;
    lba_rules(x, n, disk)?;
    Ok(Extract {
        sector_size: size,
        disk_size: disk,
        count: n,
    })
}

// Where an LBA stands among those of a checked extract. Each turn halves those in question.
pub fn seek(x: &[u8], n: usize, lba: u32) -> Result<usize, usize>
    requires { (n ≡ count x.now) × Good x.now }
    ensures { SpotOf x.now n lba result }
{
    let mut lo: usize = 0;
    let mut hi = n;
    // By halves: the LBAs are bytes of the extract and no slice of numbers that `binary_search` takes.
    while lo < hi {
        let mid = lo + (hi - lo) / 2;
        let a = word_at(x, 24 + mid * 4);
        if a == lba {
            return Ok(mid);
        }
        if a < lba {
            lo = mid + 1;
        } else {
            hi = mid;
        }
    }
    Err(lo)
}

// LBA number i of a checked extract.
pub fn lba_at(x: &[u8], n: usize, i: usize) -> u32
    requires n_value { (n ≡ count x.now) × Good x.now }
    requires i_lt_n { i < n }
    ensures { result ≡ lba_at x.now i }
{
    word_at(x, 24 + i * 4)
}

// Record number i of a checked extract, as a part of it.
pub fn record_at<'a>(x: &'a [u8], n: usize, i: usize) -> &'a [u8]
    requires n_value { (n ≡ count x.now) × Good x.now }
    requires i_lt_n { i < n }
    ensures { result.now ≡ record_at x.now i }
{
    let at = 24 + n * 4 + i * 512;
    &x[at..at + 512]
}

// The record at an LBA of a checked extract, as a part of it; empty if there is none.
pub fn record_of<'a>(x: &'a [u8], n: usize, lba: u32) -> &'a [u8]
    requires { (n ≡ count x.now) × Good x.now }
    ensures { result.now ≡ record_of x.now lba }
{
    match seek(x, n, lba) {
        Err(_) => &x[0..0],
        Ok(i) => record_at(x, n, i),
    }
}
