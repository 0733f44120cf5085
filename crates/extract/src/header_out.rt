// The header of an extract, each byte written once.
ghost use Rattle.std.specs.Prelude.{◌≡◌, ◌≤◌, length};
ghost use Rattle.base.specs.Put.{put};
ghost use Rattle.extract.specs.Header.{header_bytes};
ghost use Rattle.extract.specs.Rules.{most_records};

// The header of an extract of n records.
pub fn put_header(out: &mut [u8], size: u32, disk: u32, n: usize)
    requires { (n ≤ most_records) × (24 ≤ length out.old) }
    ensures { out.new ≡ put out.old 0 (header_bytes size disk n) }
{
    base::put32(out, 0, size);
    base::put32(out, 4, disk);
    base::put32(out, 8, n as u32);
    base::put32(out, 12, 24);
    base::put32(out, 16, (24 + n * 4) as u32);
    base::put32(out, 20, (24 + n * 516) as u32);
}
