// The search among the logical partitions of a block, and what a hit among its primaries leads to. Internal: the block has passed its checks.
ghost use Rattle.std.specs.Prelude.{◌≡◌};
ghost use Rattle.std.specs.Prelude.{Some};
ghost use Rattle.base.specs.Said.{answered};
ghost use Rattle.block.specs.Block.{table_in, Passed};
ghost use Rattle.table_lookup.specs.Hits.{numbered, among_logicals};
ghost use Rattle.table_lookup.specs.Find.{number_of, turned};

use base::Refusal;
use record_entry::MBRPartitionEntry;

// The first logical partition that holds a sector; the search ends at a hit or a refusal.
fn among_logicals(b: &[u8], sector: u32) -> Result<Option<usize>, Refusal>
    requires { Passed b.now }
    ensures { answered result ≡ number_of (among_logicals (table_in b.now) sector) }
{
    let n = block_read::fields::count(b);
    // By number: the partitions stand in the bytes of the block and not in a slice.
    for i in 0..n {
        let e = block_read::fields::logical(b, i);
        if table_lookup::hits::is_within(sector, e)? {
            return Ok(Some(5 + i));
        }
    }
    Ok(None)
}

// What a hit among the primaries leads to: an extended entry is never answered.
pub fn after_hit(
    b: &[u8],
    sector: u32,
    number: usize,
    e: MBRPartitionEntry,
) -> Result<Option<usize>, Refusal>
    requires { Passed b.now }
    ensures { answered result ≡ turned (table_in b.now) sector (Some (numbered number e)) }
{
    if e.is_extended() {
        return among_logicals(b, sector);
    }
    Ok(Some(number))
}
