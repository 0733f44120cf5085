// The station's program: lists the table of a disk or an image, writes its extract, and changes it carefully.
// Scope: none, it is ours, over reading and the careful changes.
#![tactic(auto)]

mod change;
mod wishes;

use change::NotDone;
use station_disk::first_sector::FirstSector;
use station_disk::{first_sector, gather, open, other_size};
use station_stores::output;
use station_words::args::Command;
use station_words::errors::Told;
use station_words::{args, errors, help, options, size, wrong};

// What the listing does not say.
fn warn(rt: &HostRuntime, x: &[u8]) {
    first_sector::show_guid(rt, x);
    if first_sector::state(x) == FirstSector::Other {
        first_sector::show_other(rt, x);
    }
}

// list and extract: the listing of the disk, or its extract, if no other sector size speaks against it.
fn look(rt: &HostRuntime, command: Command) -> Result<(), Told> {
    options::are_known(rt, Some(command), 3)?;
    args::is_single(rt, 3, "--sector")?;
    let sector = size::wanted(rt, 3)?;
    let disk = open::to_read(rt)?;
    let mut space = [0u8; extract::LARGEST];
    let x = gather::gather(&disk, sector, &mut space).map_err(|why| {
        errors::line(rt, why);
        Told
    })?;
    other_size::holds(rt, &disk, sector, size::is_named(rt, 3), x)?;
    if command == Command::Extract {
        return output::show(rt, x);
    }
    if let Err(r) = read_table::read_from(x) {
        errors::refused(rt, r.number());
        return Err(Told);
    }
    warn(rt, x);
    output::show_listing(rt, x)
}

fn explain(rt: &HostRuntime, command: Option<Command>) {
    match command {
        Some(Command::List) => help::list(rt),
        Some(Command::Extract) => help::extract(rt),
        Some(Command::Push) => help::push(rt),
        Some(Command::Remove) => help::remove(rt),
        None => help::all(rt),
    }
}

// What a command asks for. A change ends with its last words on standard output.
fn carry_out(rt: &HostRuntime, command: Command) {
    match command {
        Command::List | Command::Extract => {
            let _ = look(rt, command);
        }
        Command::Push => change::end(rt, wishes::push(rt)),
        Command::Remove => change::end(rt, wishes::remove(rt)),
    }
}

// Says that a command has no disk to work on.
fn no_disk(rt: &HostRuntime, command: Command) {
    let _ = wrong::argument(rt, 2, "DISK", "a disk or an image");
    if command.changes() {
        change::end(rt, Err(NotDone::Failed));
    }
}

fn main(rt: HostRuntime) {
    let asked = args::asked_command(&rt);
    if args::asks_help(&rt) {
        return explain(&rt, asked);
    }
    if args::is(&rt, 1, "--version") {
        return help::version(&rt);
    }
    match asked {
        Some(command) if args::is_there(&rt, 2) => carry_out(&rt, command),
        Some(command) => no_disk(&rt, command),
        None => {
            let _ = wrong::argument(
                &rt,
                1,
                "the command",
                "list, extract, push or remove; station --help says more",
            );
        }
    }
}
