// The listing's numbers as text.
ghost use Rattle.std.specs.Prelude.{◌≡◌, ◌+◌, ◌≤◌, ◌<◌, length};
ghost use Rattle.base.specs.Put.{put};
ghost use Rattle.read_listing.specs.Text.{decimal, hex, hex_digit, spaced};

// A number in decimal digits from index `at` on; answers where the text goes on.
pub fn put_number(d: &mut [u8], at: usize, v: u32) -> usize
    requires { at + length (decimal v) ≤ length d.old }
    ensures { (result ≡ at + length (decimal v)) × (d.new ≡ put d.old at (decimal v)) }
{
    let digit = b'0' + (v % 10) as u8;
    if v < 10 {
        base::put8(d, at, digit);
        return at + 1;
    }
    let next = put_number(d, at, v / 10);
    base::put8(d, next, digit);
    next + 1
}

#[tactic(auto, using(base::proofs::Tests::tests), unfolding(crate::specs::Text::hex_digit))]
fn hex_digit(d: u8) -> u8
    requires { d < 16 }
    ensures { result ≡ hex_digit d }
{
    if d < 10 { b'0' + d } else { b'A' + (d - 10) }
}

// A space and a byte in two hex digits.
pub fn put_hex(d: &mut [u8], at: usize, b: u8) -> usize
    requires { at + 3 ≤ length d.old }
    ensures { (result ≡ at + 3) × (d.new ≡ put d.old at (spaced (hex b))) }
{
    base::put8(d, at, b' ');
    base::put8(d, at + 1, hex_digit(b / 16));
    base::put8(d, at + 2, hex_digit(b % 16));
    at + 3
}

// A space and a number.
#[tactic(auto, using(crate::proofs::text::Text::ten))]
pub fn put_spaced(d: &mut [u8], at: usize, v: u32) -> usize
    requires { at + 11 ≤ length d.old }
    ensures { (result ≡ at + length (spaced (decimal v))) × (d.new ≡ put d.old at (spaced (decimal v))) }
{
    base::put8(d, at, b' ');
    put_number(d, at + 1, v)
}
