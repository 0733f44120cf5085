// Free runs: the crate's answer, no truth about what is free.
// Scope: module 6 (positions, pairs, the extended area). Rules: F.
// For callers: `search::find_free_sectors`.
#![tactic(auto)]

pub mod ascending;
pub mod gaps;
pub mod search;

ghost use Rattle.std.specs.Prelude.{◌≡◌, [], ◌∷◌, ◌+◌, ◌≤◌, ◌<◌, IfOk, OnErr};
ghost use Rattle.base.specs.Said.{gives, refusal, failure};
ghost use Rattle.table_free.specs.Free.{u32, zone, run_list, points_in, points_said, points_after, more, closed, ends_said, most_points};

use base::Refusal;
use record_entry::MBRPartitionEntry;
use table::LOGICALS;

#[derive(Clone, Copy)]
pub struct Run {
    pub start: u32,
    pub length: u32,
}

// The most runs of a table: 5 between primaries, and one more than there are logical partitions between those.
pub const RUNS: usize = LOGICALS + 6;

// A count beside an array: `run_list` of the definitions determines the slots behind the runs too.
#[derive(Clone, Copy)]
pub struct Runs {
    pub at: [Run; RUNS],
    pub count: usize,
}

// The most positions of an area: its two bounds, and two for each partition.
pub const POINTS: usize = 2 + 2 * LOGICALS;

// The positions of an area. A count beside an array: `add` takes in an entry's, and `to` ends it.
#[derive(Clone, Copy)]
pub struct Points {
    pub at: [u32; POINTS],
    pub count: usize,
}

// No `u64::from`: the sums around it want the bound that this clause gives.
pub fn wide(x: u32) -> u64
    ensures { (result ≡ x) × (result < u32) }
{
    x as u64
}

// The first and the last sector of an entry, if it is used; its start is counted from `place`.
#[tactic(auto, using(base::proofs::Tests::tests), unfolding(crate::specs::Free::ends, base::specs::All::allb))]
pub fn ends_of(place: u32, e: MBRPartitionEntry) -> Result<Option<(u32, u32)>, Refusal>
    ensures { ends_said result ≡ more (gives []) (zone place e) }
{
    if e.is_unused() {
        return Ok(None);
    }
    let start = wide(place) + wide(e.starting_lba);
    let sum = start + wide(e.sectors);
    if sum == 0 || 0xFFFFFFFF < sum {
        return Err(Refusal::Arithmetic);
    }
    Ok(Some((start as u32, (sum - 1) as u32)))
}

impl Points {
    pub fn from(first: u32) -> Points
        ensures { (points_in result ≡ first ∷ []) × (result.count ≡ 1) }
    {
        let mut at = [0u32; POINTS];
        at[0] = first;
        Points { at: at, count: 1 }
    }

    // Takes in first and last sector of the entry, if it is used; its start is counted from `place`: 7, and then all is as it was.
    pub fn add(&mut self, place: u32, e: MBRPartitionEntry) -> Result<(), Refusal>
        requires { self.old.count + 2 ≤ most_points }
        ensures refused { refusal result ≡ failure (more (gives (points_in self.old)) (zone place e)) }
        ensures said { points_after result self.new ≡ more (gives (points_in self.old)) (zone place e) }
        ensures few { self.new.count ≤ self.old.count + 2 }
        ensures kept { OnErr result (self.new ≡ self.old) }
    {
        let Some((first, last)) = ends_of(place, e)? else {
            return Ok(());
        };
        let n = self.count;
        self.at[n] = first;
        self.at[n + 1] = last;
        self.count = n + 2;
        Ok(())
    }

    // The same positions as an answer, with those of the entry: the refusal so far, 7.
    pub fn with(
        points: Result<Points, Refusal>,
        place: u32,
        e: MBRPartitionEntry,
    ) -> Result<Points, Refusal>
        requires { IfOk points (λ p. p.count + 2 ≤ most_points) }
        ensures said { points_said result ≡ more (points_said points) (zone place e) }
        ensures few { IfOk result (λ q. IfOk points (λ p. q.count ≤ p.count + 2)) }
    {
        let mut p = points?;
        p.add(place, e)?;
        Ok(p)
    }

    // An answer's positions with the area's end: the refusal so far, 7.
    pub fn to(points: Result<Points, Refusal>, end: u64) -> Result<Points, Refusal>
        requires { IfOk points (λ p. p.count < most_points) }
        ensures said { points_said result ≡ closed (points_said points) end }
        ensures few { IfOk result (λ q. IfOk points (λ p. q.count ≤ p.count + 1)) }
    {
        let mut all = points?;
        if 0xFFFFFFFF < end {
            return Err(Refusal::Arithmetic);
        }
        let n = all.count;
        all.at[n] = end as u32;
        all.count = n + 1;
        Ok(all)
    }
}

impl Runs {
    pub fn new() -> Runs
        ensures { result ≡ run_list [] }
    {
        let none = Run {
            start: 0,
            length: 0,
        };
        let at = [none; RUNS];
        Runs { at: at, count: 0 }
    }
}
