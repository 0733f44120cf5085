// What push and remove are asked for.
use crate::change;
use crate::change::{NotDone, Wish};
use station_words::args::Command;
use station_words::errors::Told;
use station_words::{args, errors, geometry, options, size, wrong};
use table::MBR;
use table_push::Request;

// Has --save, if it is there, the name of a file behind it, and no --dry-run beside it?
fn save_fits(rt: &HostRuntime, from: usize, dry: bool) -> Result<(), Told> {
    let Some(i) = args::find(rt, from, "--save") else {
        return Ok(());
    };
    if dry {
        return Err(errors::failed(
            rt,
            "--save and --dry-run do not go together: a dry run changes nothing",
        ));
    }
    let mut space = [0u8; args::LONGEST];
    let path = args::bytes(rt, i + 1, &mut space);
    if path.is_empty() || path.starts_with(b"--") {
        return Err(wrong::behind(rt, i + 1, "--save", "the name of a new file"));
    }
    Ok(())
}

// The change, if its options from a place on are the command's own, and understood: the number of the new partition of a push.
fn begin(
    rt: &HostRuntime,
    command: Command,
    from: usize,
    wish: Wish,
) -> Result<Option<usize>, NotDone> {
    let dry = args::flag(rt, from, "--dry-run");
    options::are_known(rt, Some(command), from)?;
    options::are_single(rt, from)?;
    save_fits(rt, from, dry)?;
    let sector = size::wanted(rt, from)?;
    change::on_disk(rt, sector, size::is_named(rt, from), dry, wish)
}

// push DISK TYPE START SECTORS
pub fn push(rt: &HostRuntime) -> Result<Option<usize>, NotDone> {
    let sys = args::kind_for(rt, 3)?;
    let start = args::number_for(rt, 4, "START")?;
    let sectors = args::number_for(rt, 5, "SECTORS")?;
    let align = args::option_for(rt, 6, "--align", MBR::DEFAULT_ALIGN)?;
    let geometry = geometry::option(rt, 6, "--geometry")?;
    let request = Request {
        align,
        geometry,
        sys,
        start,
        sectors,
    };
    let overwrite = args::flag(rt, 4, "--overwrite-first");
    begin(rt, Command::Push, 6, Wish::Push { request, overwrite })
}

// remove DISK NUMBER
pub fn remove(rt: &HostRuntime) -> Result<Option<usize>, NotDone> {
    let number = args::number_for(rt, 3, "NUMBER")?;
    begin(rt, Command::Remove, 4, Wish::Remove(number as usize))
}
