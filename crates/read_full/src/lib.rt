// Reads into a lent buffer until it is full, the input ends or a read fails.
// Scope: none, it is ours; std has no such call that allocates nothing and tells the count.
#![tactic(auto)]

ghost use Rattle.std.specs.Prelude.{◌<◌, ◌≤◌, IfOk, length, take};
ghost use Rattle.std.specs.Io.KnownBytes.{Consumes, IsAtEnd};

use std::io;
use std::io::Read;

// Fills the buffer from the reader; fewer bytes only where the input ends or a read fails. How many there are, and whether none
// failed.
pub fn read_full<R: Read>(from: &mut R, buf: &mut [u8]) -> (usize, io::Result<()>)
    ensures room { result.0 ≤ length buf.new }
    ensures bytes { IfOk result.1 (λ _. Consumes (R.remaining from.old) (R.remaining from.new) (take result.0 buf.new)) }
    ensures end { IfOk result.1 (λ _. result.0 < length buf.new → IsAtEnd (R.remaining from.new)) }
{
    let mut done = 0;
    // No `read_exact`: it says nothing of what stands in the buffer at an end before its last byte.
    while done < buf.len() {
        match from.read(&mut buf[done..]) {
            Ok(0) => break,
            Ok(n) => done += n,
            Err(why) => return (done, Err(why)),
        }
    }
    (done, Ok(()))
}
