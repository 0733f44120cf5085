// Lookup in a table: the entry of a partition number, the partition at a sector.
// Scope: module 5 (`find_at_sector`); a number with no entry answers none. Rules: L.
// For callers: `get`, `len`, `at_sector::find_at_sector`; for our crates `kind_of`, `hits`.
#![tactic(auto)]

pub mod at_sector;
pub mod hits;

ghost use Rattle.std.specs.Prelude.{◌≡◌};
ghost use Rattle.base.specs.Said.{answered};
ghost use Rattle.table_lookup.specs.Numbers.{kind_of, get_says, len_says};

use base::Refusal;
use record_entry::MBRPartitionEntry;
use table::MBR;

// What a partition number names: nothing, a primary by its number from 1 to 4, a logical partition counted from 0. An enum of its
// own: an Option of two kinds would be matched in two steps.
#[derive(Clone, Copy)]
pub enum Kind {
    Nothing,
    Primary(usize),
    Logical(usize),
}

// The decision over partition numbers 0, 1 to 4, 5 and up.
#[tactic(auto, using(base::proofs::Tests::tests))]
pub fn kind_of(i: usize) -> Kind
    ensures { result ≡ kind_of i }
{
    match i {
        0 => Kind::Nothing,
        1..=4 => Kind::Primary(i),
        _ => Kind::Logical(i - 5),
    }
}

// The entry of a partition number: 6.
pub fn get(t: MBR, i: usize) -> Result<Option<MBRPartitionEntry>, Refusal>
    ensures { answered result ≡ get_says t i }
{
    let n = t.count;
    if table::LOGICALS < n {
        return Err(Refusal::TooManyLogicals);
    }
    match kind_of(i) {
        Kind::Nothing => Ok(None),
        Kind::Primary(k) => {
            let h = t.header;
            Ok(h.get(k))
        }
        Kind::Logical(k) => {
            if n <= k {
                return Ok(None);
            }
            let l = t.logical_partitions[k];
            let e = l.partition;
            Ok(Some(e))
        }
    }
}

// How many partitions there are, the four primaries always counted: 6.
pub fn len(t: MBR) -> Result<usize, Refusal>
    ensures { answered result ≡ len_says t }
{
    let n = t.count;
    if n <= table::LOGICALS {
        Ok(4 + n)
    } else {
        Err(Refusal::TooManyLogicals)
    }
}
