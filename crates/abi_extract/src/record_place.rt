// Where the record of a sector stands in an extract.
ghost use Rattle.std.specs.Prelude.{◌≡◌, ◌+◌, ◌*◌, ◌≤◌, ◌<◌};
ghost use Rattle.extract.specs.Extract.{Good, count, lbas};
ghost use Rattle.extract.specs.Rules.{most_records};
ghost use Rattle.abi_extract.specs.Place.{record_place};

// Where record number i of n stands in a checked extract.
fn offset(n: usize, i: usize) -> u32
    requires { (n ≤ most_records) × (i < n) }
    ensures { result ≡ 24 + n * 4 + i * 512 }
{
    (24 + n * 4 + i * 512) as u32
}

// Where the record of an LBA stands in a checked extract; none if it has none.
pub fn place_of(x: &[u8], n: usize, lba: u32) -> Option<u32>
    requires { (n ≡ count x.now) × Good x.now }
    ensures { result ≡ record_place (24 + count x.now * 4) (lbas x.now) lba }
{
    match extract::seek(x, n, lba) {
        Err(_) => None,
        Ok(i) => Some(offset(n, i)),
    }
}
