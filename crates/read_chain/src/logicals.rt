// The logical partitions of the EBRs that a chain has.
ghost use Rattle.std.specs.Prelude.{◌≡◌, ◌≤◌, ◌<◌, length};
ghost use Rattle.extract.specs.Extract.{Good, count};
ghost use Rattle.table.specs.Table.{slots, most};
ghost use Rattle.chain.specs.Chain.{first_link};
ghost use Rattle.chain.specs.Walk.{Fit, AllFit, part_in, lifted, link_at, rebuilt};
ghost use Rattle.read_chain.specs.Way.{link_by};

use record_chs::CHS;
use record_entry::MBRPartitionEntry;
use table::{LOGICALS, LogicalPartition};

// The way to an EBR: its link's sectors, first and last CHS.
#[derive(Clone, Copy)]
pub struct Way {
    pub sectors: Option<u32>,
    pub first: CHS,
    pub last: Option<CHS>,
}

// The way to the EBR behind that of record number i: its link.
#[tactic(auto, using(chain::proofs::Steps::record_long))]
fn way_behind(x: &[u8], n: usize, i: usize) -> Way
    requires n_value { (n ≡ count x.now) × Good x.now }
    requires i_lt_n { i < n }
    ensures { link_by result ≡ link_at x.now i }
{
    let link = record_entry::reader::read(extract::record_at(x, n, i), 462);
    Way {
        sectors: Some(link.sectors),
        first: link.first_chs,
        last: Some(link.last_chs),
    }
}

// The entry of the partition of record number i, its start counted from the disk's.
#[tactic(auto, using(chain::proofs::Steps::record_long))]
pub fn part_at(x: &[u8], n: usize, i: usize) -> MBRPartitionEntry
    requires n_value { (n ≡ count x.now) × Good x.now }
    requires fit { Fit x.now i }
    ensures { result ≡ part_in x.now i }
{
    let at = chain::place_of(x, n, i);
    let mut p = record_entry::reader::read(extract::record_at(x, n, i), 446);
    p.starting_lba += at.0;
    p
}

// The logical partition of record number i.
#[tactic(auto, using(chain::proofs::Steps::record_long))]
fn lift(x: &[u8], n: usize, i: usize, way: Way) -> LogicalPartition
    requires n_value { (n ≡ count x.now) × Good x.now }
    requires fit { Fit x.now i }
    ensures { result ≡ lifted x.now (link_by way) i }
{
    LogicalPartition {
        partition: part_at(x, n, i),
        absolute_ebr_lba: chain::place_of(x, n, i),
        ebr_sectors: way.sectors,
        ebr_first_chs: way.first,
        ebr_last_chs: way.last,
        kept: record_ebr::kept_of(extract::record_at(x, n, i)),
    }
}

// The logical partitions of the records found, in slots.
pub fn attach(
    x: &[u8],
    n: usize,
    found: &[usize],
    extended: MBRPartitionEntry,
) -> [LogicalPartition; LOGICALS]
    requires n_value { (n ≡ count x.now) × Good x.now }
    requires found_few { (length found.now ≤ most) × AllFit x.now found.now }
    ensures { result ≡ slots (rebuilt x.now (first_link extended) found.now) }
{
    let mut ls = [LogicalPartition::empty(); LOGICALS];
    // the first EBR has no link
    let mut way = Way {
        sectors: None,
        first: extended.first_chs,
        last: None,
    };
    for (j, i) in found.iter().enumerate() {
        ls[j] = lift(x, n, *i, way);
        way = way_behind(x, n, *i);
    }
    ls
}
