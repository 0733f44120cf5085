// The rules of a sound table that one entry, two entries or one logical partition decide.
ghost use Rattle.std.specs.Prelude.{◌≡◌};
ghost use Rattle.sound.specs.Sound.{apartb, not_bothb};
ghost use Rattle.sound.specs.Walk.{spanb, primaryb, pairb, standb};

use crate::by_itself::{good_alone, in_place, within_entry};
use crate::in_turn::{end_of, good_turn};
use record_entry::MBRPartitionEntry;
use table::LogicalPartition;

// Start and sectors at least 1, the end by the disk's.
#[tactic(auto, unfolding(crate::specs::Walk::spanb))]
fn has_span(e: MBRPartitionEntry, disk: u32) -> bool
    ensures { result ≡ spanb disk e }
{
    1 <= e.starting_lba && 1 <= e.sectors && end_of(e) <= disk as u64
}

// A primary entry by itself: flag, CHS and, if it is used, its span.
#[tactic(auto, unfolding(crate::specs::Walk::primaryb))]
pub fn good_primary(e: MBRPartitionEntry, disk: u32) -> bool
    ensures { result ≡ primaryb disk e }
{
    e.check() && within_entry(e) && (!e.is_used() || has_span(e, disk))
}

// Two entries that do not overlap, if both are used.
fn apart(e: MBRPartitionEntry, f: MBRPartitionEntry) -> bool
    ensures { result ≡ apartb e f }
{
    !e.is_used()
        || !f.is_used()
        || end_of(e) <= f.starting_lba as u64
        || end_of(f) <= e.starting_lba as u64
}

// Two entries of which not both are extended.
fn not_both(e: MBRPartitionEntry, f: MBRPartitionEntry) -> bool
    ensures { result ≡ not_bothb e f }
{
    !e.is_extended() || !f.is_extended()
}

#[tactic(auto, unfolding(crate::specs::Walk::pairb))]
pub fn good_pair(e: MBRPartitionEntry, f: MBRPartitionEntry) -> bool
    ensures { result ≡ pairb e f }
{
    apart(e, f) && not_both(e, f)
}

#[tactic(auto, unfolding(crate::specs::Walk::standb))]
pub fn stands(l: LogicalPartition, first: bool, from: u64, hi: u64) -> bool
    ensures { result ≡ standb hi first from l }
{
    good_alone(l) && in_place(l, first) && good_turn(l, first, from, hi)
}
