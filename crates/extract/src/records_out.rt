// The records of an extract, and the whole extract, each byte written once.
ghost use Rattle.std.specs.Prelude.{◌≡◌, ◌+◌, ◌*◌, ◌≤◌, length};
ghost use Rattle.base.specs.Put.{put};
ghost use Rattle.extract.specs.Cut.{many, record_parts, all_parts, Room};
ghost use Rattle.extract.specs.Rules.{most_records};

use crate::Extract;

// The records behind m LBAs: of the n records of x those before number p, the new one, those from number q on.
fn put_records(out: &mut [u8], at: usize, x: &[u8], n: usize, p: usize, q: usize, sector: &[u8])
    requires { Room x.now n p q × (length sector.now ≡ 512) × (at ≤ 4096) × (at + many n p q * 512 ≤ length out.old) }
    ensures { out.new ≡ put out.old at (record_parts x.now n p q sector.now) }
{
    let start = 24 + n * 4;
    let cut = start + p * 512;
    base::copy_in(out, at, &x[start..cut]);
    let place = at + p * 512;
    base::copy_in(out, place, sector);
    let rest = start + q * 512;
    let end = 24 + n * 516;
    base::copy_in(out, place + 512, &x[rest..end]);
}

// The new extract, each byte once.
pub fn put_extract(
    out: &mut [u8],
    x: &[u8],
    e: Extract,
    p: usize,
    q: usize,
    lba: u32,
    sector: &[u8],
)
    requires { Room x.now e.count p q × (length sector.now ≡ 512) × (many e.count p q ≤ most_records) × (24 + many e.count p q * 516 ≤ length out.old) }
    ensures { out.new ≡ put out.old 0 (all_parts x.now e p q lba sector.now) }
{
    let n = e.count;
    let m = p + 1 + (n - q);
    crate::header_out::put_header(out, e.sector_size, e.disk_size, m);
    crate::list_out::put_lbas(out, x, n, p, q, lba);
    put_records(out, 24 + m * 4, x, n, p, q, sector);
}
