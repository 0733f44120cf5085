// The used starts of a header and of the partitions of a chain, and their alignment.
ghost use Rattle.std.specs.Prelude.{◌≡◌, ◌++◌, [], ◌∷◌, ◌+◌, ◌≤◌, ◌<◌, length};
ghost use Rattle.arrayvec.specs.ArrayVec.{array_vec_len};
ghost use Rattle.base.specs.Said.{answered};
ghost use Rattle.extract.specs.Extract.{Good, count};
ghost use Rattle.table.specs.Table.{most};
ghost use Rattle.chain.specs.Walk.{AllFit};
ghost use Rattle.read_align.specs.Align.{used_starts, alignment, most_starts};
ghost use Rattle.read_align.specs.Starts.{starts_found};

use crate::STARTS;
use arrayvec::ArrayVec;
use base::Refusal;
use record_entry::MBRPartitionEntry;
use record_mbr::MBRHeader;

// Adds the entry's start, if it is used.
fn add(starts: &mut ArrayVec<u32, STARTS>, e: MBRPartitionEntry)
    requires { array_vec_len starts.old < most_starts }
    ensures grown { starts.new.items ≡ starts.old.items ++ used_starts (e ∷ []) }
    ensures long { array_vec_len starts.new ≤ array_vec_len starts.old + 1 }
{
    if e.sys != 0 {
        starts.push(e.starting_lba);
    }
}

// The alignment of the used starts of the header and of the partitions of the records found.
pub fn alignment_of(x: &[u8], n: usize, h: MBRHeader, found: &[usize]) -> Result<u32, Refusal>
    requires n_value { (n ≡ count x.now) × Good x.now }
    requires found_few { (length found.now ≤ most) × AllFit x.now found.now }
    ensures { answered result ≡ alignment (starts_found x.now h found.now) }
{
    let mut starts = ArrayVec::new();
    add(&mut starts, h.partition_1);
    add(&mut starts, h.partition_2);
    add(&mut starts, h.partition_3);
    add(&mut starts, h.partition_4);
    for i in found {
        add(&mut starts, read_chain::logicals::part_at(x, n, *i));
    }
    crate::find_alignment(&starts)
}
