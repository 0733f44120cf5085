// The program's arguments.
ghost use Rattle.std.specs.Prelude.{◌≡◌, ◌<◌, IfSome};

use crate::errors::Told;
use crate::wrong;
use std::env::{Env, FillError};
use std::io::AsBytes;
use std::str;
use std::str::FromStr;

// The program looks at no argument from this place on.
pub const MOST: usize = 24;

// The bytes that an argument is read into; a longer one is read as an empty one.
pub const LONGEST: usize = 4096;

// The argument's bytes, at the start of the space; none where it is missing or longer.
pub fn bytes<'a>(rt: &HostRuntime, i: usize, space: &'a mut [u8]) -> &'a [u8] {
    match rt.arg(i, space) {
        Ok(n) => &space[..n],
        Err(_) => &[],
    }
}

// Is there an argument at this place?
pub fn is_there(rt: &HostRuntime, i: usize) -> bool {
    !matches!(rt.arg(i, &mut [0u8; 1]), Err(FillError::NotPresent))
}

// Is the argument this word?
pub fn is<W: AsBytes + Drop>(rt: &HostRuntime, i: usize, word: W) -> bool {
    let mut space = [0u8; LONGEST];
    bytes(rt, i, &mut space) == word.as_byte_slice()
}

// The decimal number that the bytes spell.
pub fn decimal<T: FromStr>(s: &[u8]) -> Option<T>
where
    T::Err: Drop,
{
    // `parse` takes a sign too
    if !s.iter().all(|b| b.is_ascii_digit()) {
        return None;
    }
    match str::from_utf8(s) {
        Ok(digits) => digits.parse().ok(),
        Err(_) => None,
    }
}

// The number that the argument spells.
pub fn number(rt: &HostRuntime, i: usize) -> Option<u32> {
    let mut space = [0u8; LONGEST];
    decimal(bytes(rt, i, &mut space))
}

const NUMBER: &str = "a whole number up to 4294967295";

// The number that the argument of a name spells.
pub fn number_for<W: AsBytes + Drop>(rt: &HostRuntime, i: usize, name: W) -> Result<u32, Told> {
    number(rt, i).ok_or_else(|| wrong::argument(rt, i, name, NUMBER))
}

// The first argument from a place on that is this word.
pub fn find<W: AsBytes + Drop>(rt: &HostRuntime, from: usize, word: W) -> Option<usize>
    ensures { IfSome result (λ i. i < 24) }
{
    let word = word.as_byte_slice();
    for i in from..MOST {
        if is(rt, i, word) {
            return Some(i);
        }
    }
    None
}

// The number behind an option from a place on, or what stands for it.
pub fn option_for<W: AsBytes + Drop, N: From<u32> + Drop>(
    rt: &HostRuntime,
    from: usize,
    word: W,
    other: N,
) -> Result<N, Told> {
    let word = word.as_byte_slice();
    let Some(i) = find(rt, from, word) else {
        return Ok(other);
    };
    match number(rt, i + 1) {
        Some(n) => Ok(N::from(n)),
        None => Err(wrong::behind(rt, i + 1, word, NUMBER)),
    }
}

// Is the option there?
pub fn flag<W: AsBytes + Drop>(rt: &HostRuntime, from: usize, word: W) -> bool {
    find(rt, from, word).is_some()
}

// Is the option there once at most?
pub fn is_single<W: AsBytes + Drop>(rt: &HostRuntime, from: usize, word: W) -> Result<(), Told> {
    let word = word.as_byte_slice();
    match find(rt, from, word) {
        Some(i) if flag(rt, i + 1, word) => Err(wrong::twice(rt, word)),
        _ => Ok(()),
    }
}

// The byte that two hex digits spell.
fn hex(s: &[u8]) -> Option<u8> {
    if s.len() != 2 || !s.iter().all(|b| b.is_ascii_hexdigit()) {
        return None;
    }
    match str::from_utf8(s) {
        Ok(digits) => u8::from_str_radix(digits, 16).ok(),
        Err(_) => None,
    }
}

// The type that the argument spells.
pub fn kind_for(rt: &HostRuntime, i: usize) -> Result<u8, Told> {
    let mut space = [0u8; LONGEST];
    hex(bytes(rt, i, &mut space)).ok_or_else(|| wrong::argument(rt, i, "TYPE", "two hex digits"))
}

#[derive(Clone, Copy, PartialEq, Eq, Debug)]
pub enum Command {
    List,
    Extract,
    Push,
    Remove,
}

impl Command {
    // Does it change the disk?
    pub fn changes(self) -> bool {
        matches!(self, Command::Push | Command::Remove)
    }
}

// The command that the first argument names.
pub fn asked_command(rt: &HostRuntime) -> Option<Command> {
    let mut space = [0u8; LONGEST];
    match bytes(rt, 1, &mut space) {
        b"list" => Some(Command::List),
        b"extract" => Some(Command::Extract),
        b"push" => Some(Command::Push),
        b"remove" => Some(Command::Remove),
        _ => None,
    }
}

// Is one of the arguments a question for help?
pub fn asks_help(rt: &HostRuntime) -> bool {
    flag(rt, 1, "--help") || flag(rt, 1, "-h")
}
