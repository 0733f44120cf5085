// What a push asks for: rounded, and held to the extended entry.
ghost use Rattle.std.specs.Prelude.{◌≡◌, ◌+◌, ◌-◌, ◌*◌, ◌<◌};
ghost use Rattle.base.specs.Said.{answered, refusal};
ghost use Rattle.base.specs.Checks.{first-fail, answer};
ghost use Rattle.table_push.specs.Asked.{place_of, size_of, round_checks, place_checks, end_checks, later_than};
ghost use Rattle.table_push.specs.RequestAnswers.{at_place};
ghost use Rattle.table.specs.Table.{rounded};

use base::Refusal;
use record_entry::MBRPartitionEntry;
use table_address::Geometry;

// What a push asks for.
#[derive(Clone, Copy)]
pub struct Request {
    pub align: u32,
    pub geometry: Geometry,
    pub sys: u8,
    pub start: u32,
    pub sectors: u32,
}

// A new EBR's place and the sectors from there on, both rounded.
#[derive(Clone, Copy)]
pub struct EbrPlace {
    pub at: u32,
    pub size: u32,
}

// A number above 0 rounded up to a multiple of the alignment.
fn round_up(align: u32, n: u32) -> u64
    requires { (0 < align) × (0 < n) }
    ensures { result ≡ rounded align n }
{
    ((n - 1) / align + 1) as u64 * align as u64
}

// Start and size rounded, each 7.
pub fn rounding(q: Request) -> Result<EbrPlace, Refusal>
    ensures { answered result ≡ answer (round_checks q) (at_place (place_of q) (size_of q)) }
{
    if q.start == 0 {
        return Err(Refusal::Arithmetic);
    }
    if q.align == 0 {
        return Err(Refusal::Arithmetic);
    }
    let at = round_up(q.align, q.start);
    if 4294967296 <= at {
        return Err(Refusal::Arithmetic);
    }
    if q.sectors == 0 {
        return Err(Refusal::Arithmetic);
    }
    let size = round_up(q.align, q.sectors);
    if 4294967296 <= size {
        return Err(Refusal::Arithmetic);
    }
    Ok(EbrPlace {
        at: at as u32,
        size: size as u32,
    })
}

// The place in the extended entry: 7, 9, 7, 10, 7, 11.
pub fn place_rules(q: Request, p: EbrPlace, e: MBRPartitionEntry) -> Result<(), Refusal>
    requires { (p.at ≡ place_of q) × (p.size ≡ size_of q) }
    ensures { refusal result ≡ first-fail (place_checks q e) }
{
    let double = 2 * q.align as u64;
    if 4294967296 <= double {
        return Err(Refusal::Arithmetic);
    }
    if (p.size as u64) < double {
        return Err(Refusal::NotEnoughSectorsToCreateLogicalPartition);
    }
    if 4294967296 <= p.at as u64 + q.align as u64 {
        return Err(Refusal::Arithmetic);
    }
    if p.at < e.starting_lba {
        return Err(Refusal::EBRStartsBeforeExtendedPartition);
    }
    let end = e.starting_lba as u64 + e.sectors as u64;
    if 4294967296 <= end {
        return Err(Refusal::Arithmetic);
    }
    if end < double {
        return Err(Refusal::Arithmetic);
    }
    if end - double < p.at as u64 {
        return Err(Refusal::EBRStartsTooCloseToTheEndOfExtendedPartition);
    }
    Ok(())
}

// The end of a partition behind n others: for a later one 7, 12.
pub fn end_rules(q: Request, p: EbrPlace, e: MBRPartitionEntry, n: usize) -> Result<(), Refusal>
    requires { (p.at ≡ place_of q) × (p.size ≡ size_of q) }
    ensures { refusal result ≡ first-fail (end_checks (later_than n) q e) }
{
    if n == 0 {
        return Ok(());
    }
    let end = p.at as u64 + p.size as u64;
    let area = e.starting_lba as u64 + e.sectors as u64;
    if 4294967296 <= end {
        return Err(Refusal::Arithmetic);
    }
    if area < end {
        return Err(Refusal::EBREndsAfterExtendedPartition);
    }
    Ok(())
}
