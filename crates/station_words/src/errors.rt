// What the program says on standard error.
use std::fmt::Display;
use std::io;
use std::io::{AsBytes, Write};

// What went wrong was said on standard error.
#[derive(Clone, Copy, PartialEq, Eq, Debug)]
pub struct Told;

// Text, or bytes that need not be text.
pub fn text<B: AsBytes + Drop>(rt: &HostRuntime, what: B) {
    let _ = Print::write_all(&rt.stderr(), what.as_byte_slice());
}

// A line of what can be shown. Each part is written whether or not the one before it could be, here and below.
pub fn line<D: Display + Drop>(rt: &HostRuntime, what: D) {
    let _ = rt.eprint(what);
    text(rt, "\n");
}

// A number among texts.
pub fn with_number<A: AsBytes + Drop, B: AsBytes + Drop>(rt: &HostRuntime, one: A, n: u32, two: B) {
    text(rt, one);
    let _ = rt.eprint(n);
    text(rt, two);
}

// What went wrong outside the table: an argument, or a call of the system.
pub fn failed<B: AsBytes + Drop>(rt: &HostRuntime, why: B) -> Told {
    text(rt, "failed: ");
    text(rt, why);
    text(rt, "\n");
    Told
}

// What an operator should know, though the command goes on.
pub fn warning<B: AsBytes + Drop>(rt: &HostRuntime, what: B) {
    text(rt, "warning: ");
    text(rt, what);
    text(rt, "\n");
}

// The longest text of a failed call of the system, with its number.
const LONGEST: usize = 256;

// What stands before that number.
const NUMBER: &[u8] = b" (os error ";

// What a failed call of the system was about, and its reason.
pub fn system(rt: &HostRuntime, what: &[u8], e: &io::Error) {
    let mut space = [0u8; LONGEST];
    let mut rest: &mut [u8] = &mut space;
    let _ = write!(rest, "{e}");
    let length = LONGEST.saturating_sub(rest.len());
    let reason = &space[..length];
    let end = reason
        .windows(NUMBER.len())
        .position(|part| part == NUMBER)
        .unwrap_or(length);
    text(rt, what);
    text(rt, ": ");
    text(rt, &reason[..end]);
    text(rt, "\n");
}

// A refusal in the words of its rule.
fn words(number: u8) -> &'static str {
    match number {
        1 => "the size is no whole number of sectors, or of too many",
        2 => "the table leads past the end of the disk, or the disk is empty",
        3 => "55 AA is missing in sector 0 or in a boot record of the chain",
        4 => "a boot flag in sector 0 or in the chain is neither 00 nor 80",
        5 => {
            "a link leads back: likely a chain not in disk order, as fdisk and parted leave it after deleting and adding; else it is damaged"
        }
        6 => "24 logical partitions are there already, or more",
        7 => "a number is too large for the disk's fields, or is 0 where it must not be",
        8 => "there is no extended partition",
        9 => "too few sectors: twice the alignment is the least",
        10 => "the start is before the extended partition",
        11 => "the start is too near the end of the extended partition",
        12 => "the partition would end after the extended partition",
        13 => "with this geometry the cylinder is above 1023",
        14 => "the cylinder is above the geometry's",
        17 => "there is no logical partition of this number",
        20 => {
            "the table is not sound: overlapping, empty or nested partitions, or a chain out of order"
        }
        21 => {
            "there is no gap for it: it would overlap a logical partition or a boot record, or stand between the two"
        }
        23 => "type 00 or an extended type, or a geometry of more than 63 sectors",
        _ => "this should not happen: note down what you typed",
    }
}

// A refusal, by its number.
pub fn refused(rt: &HostRuntime, number: u8) {
    text(rt, "refused ");
    line(rt, format_args!("{number}: {}", words(number)));
}
