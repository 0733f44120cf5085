// What is wrong with an argument, by its word and by what was expected.
use crate::errors::Told;
use crate::{args, errors};
use std::io::AsBytes;

fn expected<W: AsBytes + Drop>(rt: &HostRuntime, what: W) -> Told {
    errors::text(rt, ", expected ");
    errors::text(rt, what);
    errors::text(rt, "\n");
    Told
}

// The argument's word.
fn quote(rt: &HostRuntime, i: usize) {
    let mut space = [0u8; args::LONGEST];
    errors::text(rt, "'");
    errors::text(rt, args::bytes(rt, i, &mut space));
    errors::text(rt, "'");
}

// What the sentence is about has no word at the argument's place, or another than expected.
fn is_wrong<N: AsBytes + Drop, W: AsBytes + Drop>(
    rt: &HostRuntime,
    about: &str,
    name: N,
    i: usize,
    what: W,
) -> Told {
    errors::text(rt, about);
    errors::text(rt, name);
    if args::is_there(rt, i) {
        errors::text(rt, " is ");
        quote(rt, i);
    } else {
        errors::text(rt, " is missing");
    }
    expected(rt, what)
}

// The argument at a place, which has a name, is missing or is another word than expected.
pub fn argument<N: AsBytes + Drop, W: AsBytes + Drop>(
    rt: &HostRuntime,
    i: usize,
    name: N,
    what: W,
) -> Told {
    is_wrong(rt, "failed: ", name, i, what)
}

// The same of the argument behind an option.
pub fn behind<N: AsBytes + Drop, W: AsBytes + Drop>(
    rt: &HostRuntime,
    i: usize,
    option: N,
    what: W,
) -> Told {
    is_wrong(rt, "failed: the word behind ", option, i, what)
}

// The argument at a place stands where nothing of its kind is understood.
pub fn word<W: AsBytes + Drop>(rt: &HostRuntime, i: usize, what: W) -> Told {
    errors::text(rt, "failed: ");
    quote(rt, i);
    errors::text(rt, " is not understood, expected ");
    errors::text(rt, what);
    errors::text(rt, "\n");
    Told
}

// An option is there twice.
pub fn twice<N: AsBytes + Drop>(rt: &HostRuntime, name: N) -> Told {
    errors::text(rt, "failed: ");
    errors::text(rt, name);
    errors::text(rt, " is given twice\n");
    Told
}
