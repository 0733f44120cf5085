// What a careful push may ask for. Internal.
ghost use Rattle.std.specs.Prelude.{◌≡◌};
ghost use Rattle.careful.specs.Careful.{too_wide, askable};

use record_entry::MBRPartitionEntry;
use table_push::{Geometry, Request};

// A geometry that would be complete but for more than 63 sectors?
#[tactic(auto, unfolding(careful::specs::Careful::too_wide))]
fn is_too_wide(g: Geometry) -> bool
    ensures { result ≡ too_wide g }
{
    g.cylinders != 0 && g.cylinders <= 1023 && g.heads != 0 && 63 < g.sectors
}

// May a careful push ask for this? Not for type 0, not for an extended type, not with a geometry that is too wide.
#[tactic(auto, unfolding(careful::specs::Careful::ask_checks))]
pub fn is_askable(q: Request) -> bool
    ensures { result ≡ askable q }
{
    let p = MBRPartitionEntry {
        sys: q.sys,
        ..MBRPartitionEntry::empty()
    };
    p.is_used() && !p.is_extended() && !is_too_wide(q.geometry)
}
