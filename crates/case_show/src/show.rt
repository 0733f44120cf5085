// How the case programs write a value: each part after a space.
ghost use Rattle.std.specs.Prelude.{◌<◌};

use base::Refusal;
use std::io::{BufWriter, Stdout, Write};

// Standard output, written in large pieces; the last one is written when this is let go.
pub type Out = BufWriter<Stdout>;

// A write that fails is passed over, here and below: what stands behind it is written.
pub fn text(out: &mut Out, s: &[u8]) {
    let _ = out.write_all(s);
}

pub trait Show {
    fn show(&self, out: &mut Out);
}

impl Show for u64 {
    fn show(&self, out: &mut Out) {
        let _ = write!(out, " {self}");
    }
}

impl Show for u32 {
    fn show(&self, out: &mut Out) {
        u64::from(*self).show(out);
    }
}

impl Show for u16 {
    fn show(&self, out: &mut Out) {
        u64::from(*self).show(out);
    }
}

impl Show for u8 {
    fn show(&self, out: &mut Out) {
        u64::from(*self).show(out);
    }
}

impl Show for usize {
    fn show(&self, out: &mut Out) {
        (*self as u64).show(out);
    }
}

impl Show for bool {
    fn show(&self, out: &mut Out) {
        text(out, if *self { b" yes" } else { b" no" });
    }
}

impl Show for () {
    fn show(&self, out: &mut Out) {
        text(out, b" done");
    }
}

impl<T: Show> Show for Option<T> {
    fn show(&self, out: &mut Out) {
        match self {
            Some(v) => v.show(out),
            None => text(out, b" none"),
        }
    }
}

impl<T: Show> Show for Result<T, Refusal> {
    fn show(&self, out: &mut Out) {
        match self {
            Ok(v) => v.show(out),
            Err(r) => r.show(out),
        }
    }
}

impl Show for Refusal {
    fn show(&self, out: &mut Out) {
        text(out, b" refused");
        self.number().show(out);
    }
}

// Bytes in hex digits.
#[derive(Clone, Copy)]
pub struct Hex<'a>(pub &'a [u8]);

impl Show for Hex<'_> {
    fn show(&self, out: &mut Out) {
        for b in self.0 {
            let _ = write!(out, " {b:02x}");
        }
    }
}

// Many bytes, by one number for them all.
#[derive(Clone, Copy)]
pub struct Checksum<'a>(pub &'a [u8]);

// The remainder that the sum is taken to.
const PRIME: u64 = 4294967291;

fn more(sum: u64, b: u8) -> u64
    ensures { result < 4294967291 }
{
    (sum % PRIME * 31 + b as u64) % PRIME
}

impl Show for Checksum<'_> {
    fn show(&self, out: &mut Out) {
        self.0.iter().fold(0, |sum, b| more(sum, *b)).show(out)
    }
}

// What a call that was lent O answered, then O's length and checksum.
pub fn answered<T: Show>(out: &mut Out, answer: &T, o: &[u8]) {
    answer.show(out);
    o.len().show(out);
    Checksum(o).show(out)
}
