// Which options a command has.
use crate::args::Command;
use crate::errors::Told;
use crate::{args, wrong};

// How many arguments the option at a place is, with what stands behind it; nothing if the command has no such option.
fn width(rt: &HostRuntime, command: Option<Command>, i: usize) -> Option<usize> {
    let changes = command.is_some_and(|c| c.changes());
    let pushes = command == Some(Command::Push);
    let mut space = [0u8; args::LONGEST];
    match args::bytes(rt, i, &mut space) {
        b"--sector" | b"--device-sector" => Some(2),
        b"--dry-run" | b"--in-use" if changes => Some(1),
        b"--save" if changes => Some(2),
        b"--align" | b"--geometry" if pushes => Some(2),
        b"--overwrite-first" if pushes => Some(1),
        _ => None,
    }
}

// Are the arguments from a place on options of the command, or, without one, of every command?
pub fn are_known(rt: &HostRuntime, command: Option<Command>, from: usize) -> Result<(), Told> {
    let mut i = from;
    for _ in 0..args::MOST {
        if !args::is_there(rt, i) {
            return Ok(());
        }
        let Some(n) = width(rt, command, i) else {
            return Err(wrong::word(rt, i, "an option; station COMMAND --help names them"));
        };
        i = i.saturating_add(n);
    }
    Err(wrong::word(rt, i, "fewer arguments"))
}

// Is no option of a change there twice?
pub fn are_single(rt: &HostRuntime, from: usize) -> Result<(), Told> {
    for word in ["--sector", "--save", "--align", "--geometry"] {
        args::is_single(rt, from, word)?;
    }
    Ok(())
}
