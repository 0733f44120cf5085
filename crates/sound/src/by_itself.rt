// The rules of a sound table that an address or a logical partition by itself decides.
ghost use Rattle.std.specs.Prelude.{◌≡◌};
ghost use Rattle.sound.specs.Sound.{withinb, if_thereb, entry_chsb, logical_chsb, vacantb, end};
ghost use Rattle.sound.specs.Walk.{ownb, zoneb, placeb};

use record_chs::CHS;
use record_entry::MBRPartitionEntry;
use table::LogicalPartition;

// Within 1,023 cylinders and sector 63?
fn within(c: CHS) -> bool
    ensures { result ≡ withinb c }
{
    c.cylinder <= 1023 && c.sector <= 63
}

// The same of an address that may be absent.
fn within_if_there(m: Option<CHS>) -> bool
    ensures { result ≡ if_thereb m }
{
    m.map_or(true, within)
}

// The same of both addresses of an entry.
pub fn within_entry(e: MBRPartitionEntry) -> bool
    ensures { result ≡ entry_chsb e }
{
    within(e.first_chs) && within(e.last_chs)
}

// The same of every address of a logical partition.
fn within_logical(l: LogicalPartition) -> bool
    ensures { result ≡ logical_chsb l }
{
    within_entry(l.partition) && within(l.ebr_first_chs) && within_if_there(l.ebr_last_chs)
}

// A logical partition by itself: flag, CHS, not extended.
#[tactic(auto, unfolding(crate::specs::Walk::ownb))]
pub fn good_alone(l: LogicalPartition) -> bool
    ensures { result ≡ ownb l }
{
    l.partition.check() && within_logical(l) && !l.partition.is_extended()
}

// A zone: used, at least 1 sector, after its EBR.
#[tactic(auto, unfolding(crate::specs::Walk::zoneb))]
fn is_zone(l: LogicalPartition) -> bool
    ensures { result ≡ zoneb l }
{
    l.partition.is_used()
        && 1 <= l.partition.sectors
        && l.absolute_ebr_lba.0 < l.partition.starting_lba
}

// An EBR without a partition: type 0, the start on the EBR itself, no sectors.
#[tactic(auto, unfolding(crate::specs::Sound::vacantb))]
fn is_vacant(l: LogicalPartition) -> bool
    ensures { result ≡ vacantb l }
{
    l.partition.sys == 0
        && l.partition.starting_lba == l.absolute_ebr_lba.0
        && l.partition.sectors == 0
}

// A zone, or the first and an EBR without a partition.
#[tactic(auto, unfolding(crate::specs::Walk::placeb))]
pub fn in_place(l: LogicalPartition, first: bool) -> bool
    ensures { result ≡ placeb first l }
{
    is_zone(l) || first && is_vacant(l)
}

// Where a logical partition ends; an EBR without one ends behind itself.
#[tactic(auto, unfolding(crate::specs::Sound::end))]
pub fn ends_at(l: LogicalPartition) -> u64
    ensures { result ≡ end l }
{
    if is_vacant(l) {
        l.absolute_ebr_lba.0 as u64 + 1
    } else {
        crate::in_turn::end_of(l.partition)
    }
}
