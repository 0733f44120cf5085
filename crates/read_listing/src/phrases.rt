// The listing's first line, and the text of a refusal.
ghost use Rattle.std.specs.Prelude.{◌≡◌, ◌≤◌, length};
ghost use Rattle.base.specs.Put.{put};
ghost use Rattle.read_listing.specs.Words.{first_line, refused_text};
ghost use Rattle.read_listing.specs.Listing.{line_room, room};

// D, alignment, logical count.
pub fn put_first(d: &mut [u8], disk: u32, align: u32, count: u32) -> usize
    requires { line_room ≤ length d.old }
    ensures { (result ≡ length (first_line disk align count)) × (d.new ≡ put d.old 0 (first_line disk align count)) × (result ≤ line_room) }
{
    base::copy_in(d, 0, b"disk ");
    let at = crate::text::put_number(d, 5, disk);
    base::copy_in(d, at, b" align ");
    let at = crate::text::put_number(d, at + 7, align);
    base::copy_in(d, at, b" logical ");
    let at = crate::text::put_number(d, at + 9, count);
    base::put8(d, at, b'\n');
    at + 1
}

// The text of a refusal from index 0 on.
pub fn put_refused(d: &mut [u8], k: u8) -> usize
    requires { room ≤ length d.old }
    ensures { (result ≡ length (refused_text k)) × (d.new ≡ put d.old 0 (refused_text k)) }
{
    base::copy_in(d, 0, b"refused ");
    let at = crate::text::put_number(d, 8, base::wide(k));
    base::put8(d, at, b'\n');
    at + 1
}
