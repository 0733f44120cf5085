// The LBA list of an extract, each byte written once.
ghost use Rattle.std.specs.Prelude.{◌≡◌, ◌+◌, ◌*◌, ◌≤◌, length};
ghost use Rattle.base.specs.Put.{put};
ghost use Rattle.extract.specs.Cut.{many, lba_parts, Room};

// The LBA list: of the n LBAs of x those before number p, the new one, those from number q on.
pub fn put_lbas(out: &mut [u8], x: &[u8], n: usize, p: usize, q: usize, lba: u32)
    requires { Room x.now n p q × (24 + many n p q * 4 ≤ length out.old) }
    ensures { out.new ≡ put out.old 24 (lba_parts x.now n p q lba) }
{
    let cut = 24 + p * 4;
    base::copy_in(out, 24, &x[24..cut]);
    base::put32(out, cut, lba);
    let rest = 24 + q * 4;
    let end = 24 + n * 4;
    base::copy_in(out, cut + 4, &x[rest..end]);
}
