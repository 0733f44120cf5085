// The partition that holds a sector.
ghost use Rattle.std.specs.Prelude.{◌≡◌};
ghost use Rattle.base.specs.Said.{answered};
ghost use Rattle.table_lookup.specs.Find.{find_says};

use base::Refusal;
use table::MBR;

// The number of the primary or logical partition that holds a sector; never the extended one: 6, 7.
#[tactic(auto, using(base::proofs::Tests::tests), unfolding(crate::specs::Find::find_says))]
pub fn find_at_sector(t: MBR, sector: u32) -> Result<Option<usize>, Refusal>
    ensures { answered result ≡ find_says t sector }
{
    if table::LOGICALS < t.count {
        return Err(Refusal::TooManyLogicals);
    }
    let h = t.header;
    let Some(p) = crate::hits::among_primaries(h, sector)? else {
        return Ok(None);
    };
    let e = p.entry;
    if !e.is_extended() {
        return Ok(Some(p.number));
    }
    Ok(crate::hits::among_logicals(t, sector)?.map(|l| l.number))
}
