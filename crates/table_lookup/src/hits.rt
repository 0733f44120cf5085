// Which of a table's entries holds a sector.
ghost use Rattle.std.specs.Prelude.{◌≡◌, ◌≤◌};
ghost use Rattle.base.specs.Said.{answered};
ghost use Rattle.record_mbr.specs.Mbr.{primaries};
ghost use Rattle.table.specs.Table.{most};
ghost use Rattle.table_lookup.specs.Hits.{holds_says, first_at, among_logicals};

use base::Refusal;
use record_entry::MBRPartitionEntry;
use record_mbr::MBRHeader;
use table::MBR;

#[derive(Clone, Copy)]
pub struct Numbered {
    pub number: usize,
    pub entry: MBRPartitionEntry,
}

// Does an entry hold a sector? Its end counts only if the entry is used and starts at or before it: 7.
#[tactic(auto, using(base::proofs::Tests::tests), unfolding(crate::specs::Hits::holds_says))]
pub fn is_within(sector: u32, e: MBRPartitionEntry) -> Result<bool, Refusal>
    ensures { answered result ≡ holds_says sector e }
{
    if sector < e.starting_lba {
        return Ok(false);
    }
    let end = e.starting_lba as u64 + e.sectors as u64;
    if end <= sector as u64 {
        return Ok(false);
    }
    if end > u32::MAX as u64 && e.is_used() {
        return Err(Refusal::Arithmetic);
    }
    Ok(e.is_used())
}

// The first primary that holds a sector.
#[tactic(auto, using(crate::proofs::hits::Search::steps))]
pub fn among_primaries(h: MBRHeader, sector: u32) -> Result<Option<Numbered>, Refusal>
    ensures { answered result ≡ first_at sector 1 (primaries h) }
{
    let entries = [h.partition_1, h.partition_2, h.partition_3, h.partition_4];
    for (i, e) in entries.iter().enumerate() {
        if is_within(sector, *e)? {
            return Ok(Some(Numbered {
                number: 1 + i,
                entry: *e,
            }));
        }
    }
    Ok(None)
}

// The first logical partition that holds a sector.
#[tactic(auto, using(crate::proofs::hits::Search::steps), unfolding(crate::specs::Hits::among_logicals))]
pub fn among_logicals(t: MBR, sector: u32) -> Result<Option<Numbered>, Refusal>
    requires { t.count ≤ most }
    ensures { answered result ≡ among_logicals t sector }
{
    let logicals = &t.logical_partitions[..t.count];
    for (i, l) in logicals.iter().enumerate() {
        if is_within(sector, l.partition)? {
            return Ok(Some(Numbered {
                number: 5 + i,
                entry: l.partition,
            }));
        }
    }
    Ok(None)
}
