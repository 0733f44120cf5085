// A case file on standard input, answered line by line on standard output.
// Its commands work on X, the lent input, and O, the lent output, each the first part of a buffer.
use crate::line::Line;
use crate::show::{Out, text};
use read_full::read_full;
use std::io;
use std::io::BufWriter;

// The bytes of the largest X, and of the largest O.
const LARGEST: usize = 65536;

// The bytes of the largest case file.
const TEXT: usize = 393216;

// Answers each line by its command: what `answer` writes stands behind the command's name, and it is false where it knows no such
// command. The commands #, xp, x and o write nothing: a remark, bytes into X, X as zeros, O as many of one byte.
pub fn run<F>(rt: &HostRuntime, answer: F) -> io::Result<()>
where
    F: Fn(&mut Out, Line<'_>, &[u8], &mut [u8]) -> bool,
    requires { F.IsAlwaysCallable answer }
{
    let mut file = [0u8; TEXT];
    let mut x = [0u8; LARGEST];
    let mut o = [0u8; LARGEST];
    // where a read fails, what was read before it is answered
    let (n, read) = read_full(&mut rt.stdin(), &mut file);
    let _ = read;
    let mut out = BufWriter::new(rt.alloc(), rt.stdout())?;
    let mut lent_in = 0;
    let mut lent_out = 0;
    for line in file[..n].split_inclusive(|b| *b == b'\n') {
        let l = Line(line.strip_suffix(b"\n").unwrap_or(line));
        match l.word(0) {
            b"#" => {}
            b"xp" => l.hex_over(2, &mut x, l.number(1)),
            b"x" => {
                lent_in = l.number::<usize>(1);
                x[..lent_in.min(LARGEST)].fill(0);
            }
            b"o" => {
                lent_out = l.number::<usize>(1);
                o[..lent_out.min(LARGEST)].fill(l.number(2));
            }
            command => {
                text(&mut out, command);
                let lent_x = &x[..lent_in.min(LARGEST)];
                let lent_o = &mut o[..lent_out.min(LARGEST)];
                if !answer(&mut out, l, lent_x, lent_o) {
                    text(&mut out, b" unknown");
                }
                text(&mut out, b"\n");
            }
        }
    }
    Ok(())
}
