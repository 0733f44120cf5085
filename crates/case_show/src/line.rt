// A line of the case file: words that single spaces separate.
ghost use Rattle.std.specs.Prelude.{◌<◌, ◌^◌};

// A number that a word of the case file can stand for: what is too large for its type keeps its lower part.
pub trait Lower {
    fn lower(n: u64) -> Self;
}

impl Lower for u8 {
    fn lower(n: u64) -> u8 {
        (n % 256) as u8
    }
}

impl Lower for u16 {
    fn lower(n: u64) -> u16 {
        (n % 65536) as u16
    }
}

impl Lower for u32 {
    fn lower(n: u64) -> u32 {
        (n % 4294967296) as u32
    }
}

impl Lower for usize {
    fn lower(n: u64) -> usize {
        n as usize
    }
}

// The value of a hex digit, in lower case; 0 for any other byte.
fn digit(b: u8) -> u8
    ensures { result < 16 }
{
    match b {
        b'0'..=b'9' => b - b'0',
        b'a'..=b'f' => b - b'a' + 10,
        _ => 0,
    }
}

#[derive(Clone, Copy)]
pub struct Line<'a>(pub &'a [u8]);

impl<'a> Line<'a> {
    // What stands behind so many spaces, to the line's end; nothing where there are fewer.
    fn rest(self, k: usize) -> &'a [u8] {
        let mut rest = self.0;
        for _ in 0..k {
            match rest.iter().position(|b| *b == b' ') {
                Some(i) => rest = &rest[i + 1..],
                None => return &[],
            }
        }
        rest
    }

    // The word at a place, from 0 on; empty where there are fewer.
    pub fn word(self, k: usize) -> &'a [u8] {
        self.0.split(|b| *b == b' ').nth(k).unwrap_or(&[])
    }

    // The number that the decimal digits in front of the word at a place spell, by the last 18 of them; 0 where there are none.
    pub fn decimal(self, k: usize) -> u64
        ensures { result < 1000000000000000000 }
    {
        let mut n: u64 = 0;
        for b in self.word(k) {
            match *b {
                b'0'..=b'9' => n = n % 100000000000000000 * 10 + (*b - b'0') as u64,
                _ => break,
            }
        }
        n
    }

    // The same number, of a type.
    pub fn number<T: Lower>(self, k: usize) -> T {
        T::lower(self.decimal(k))
    }

    // Four numbers, from a place on.
    pub fn four(self, k: usize) -> [u8; 4]
        requires { k < 2 ^ 32 }
    {
        [
            self.number(k),
            self.number(k + 1),
            self.number(k + 2),
            self.number(k + 3),
        ]
    }

    // The bytes that the hex digits behind so many spaces spell, over those of `d` from an index on, as far as both go.
    pub fn hex_over(self, k: usize, d: &mut [u8], at: usize) {
        let digits = self.rest(k);
        if let Some(part) = d.get_mut(at..) {
            for (to, two) in part.iter_mut().zip(digits.chunks_exact(2)) {
                *to = digit(two[0]) * 16 + digit(two[1]);
            }
        }
    }
}
