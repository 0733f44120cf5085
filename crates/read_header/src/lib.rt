// The header alone, read from an extract.
// Scope: Refusal numbers (reading: 1, 2, 3, 4). Rules: R.
// For callers: `read_header`.
#![tactic(auto)]

ghost use Rattle.std.specs.Prelude.{◌≡◌};
ghost use Rattle.base.specs.Said.{answered};
ghost use Rattle.extract.specs.Extract.{Good, count, disk_sectors, disk_of};
ghost use Rattle.read_header.specs.Header.{header_on, header_says};

use base::Refusal;
use record_mbr::MBRHeader;

// The header of a checked extract: 2, 3, 4. A sector without a record is blank: 3.
pub fn header_of(x: &[u8], n: usize, d: u32) -> Result<MBRHeader, Refusal>
    requires n_value { (n ≡ count x.now) × Good x.now }
    requires d_value { d ≡ disk_sectors x.now }
    ensures { answered result ≡ header_on (disk_of x.now) }
{
    let r = extract::record_of(x, n, 0);
    if d == 0 {
        return Err(Refusal::PastDisk);
    }
    if r.is_empty() {
        return Err(Refusal::InvalidSignature);
    }
    record_mbr::reader::read(r)
}

// The header alone, from an extract: 1, 2, 3, 4.
pub fn read_header(x: &[u8]) -> Result<MBRHeader, Refusal>
    ensures { answered result ≡ header_says x.now }
{
    let e = extract::check(x)?;
    header_of(x, e.count, e.disk_size)
}
