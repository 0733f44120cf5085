// The sector size that the arguments ask for.
use crate::errors::Told;
use crate::{args, errors, wrong};

// The sector size behind an option from a place on; nothing if the option is not there.
fn behind(rt: &HostRuntime, from: usize, name: &str) -> Result<Option<u32>, Told> {
    let Some(i) = args::find(rt, from, name) else {
        return Ok(None);
    };
    match args::number(rt, i + 1) {
        Some(size) if extract::header_rules::size_ok(size) => Ok(Some(size)),
        _ => Err(wrong::behind(rt, i + 1, name, "512, 1024, 2048 or 4096")),
    }
}

// The sector size by the options from a place on: --sector is the operator's, --device-sector the device's own, which it must not
// contradict.
pub fn wanted(rt: &HostRuntime, from: usize) -> Result<u32, Told> {
    let asked = behind(rt, from, "--sector")?;
    let own = behind(rt, from, "--device-sector")?;
    match (asked, own) {
        (None, None) => Ok(512),
        (None, Some(size)) | (Some(size), None) => Ok(size),
        (Some(asked), Some(own)) => {
            if asked == own {
                return Ok(asked);
            }
            errors::with_number(
                rt,
                "failed: --sector says ",
                asked,
                ", but the device's own sector size is ",
            );
            errors::with_number(rt, "", own, "\n");
            Err(Told)
        }
    }
}

// Did the operator name it?
pub fn is_named(rt: &HostRuntime, from: usize) -> bool {
    args::flag(rt, from, "--sector")
}
