// The test for a sound table of no more logical partitions than it holds. Internal.
ghost use Rattle.std.specs.Prelude.{◌≡◌, true, ◌≤◌};
ghost use Rattle.base.specs.Bytes.{stands_at, signature};
ghost use Rattle.base.specs.All.{allb};
ghost use Rattle.record_mbr.specs.Mbr.{primaries, extended_of};
ghost use Rattle.table.specs.Table.{logicals, most};
ghost use Rattle.sound.specs.Is.{pairsb};
ghost use Rattle.sound.specs.Sound.{contents_of, soundb};
ghost use Rattle.sound.specs.Walk.{primaryb, pairb, rowsb, chainb};

use record_mbr::MBRHeader;
use sound::by_itself::ends_at;
use sound::each::{good_pair, good_primary, stands};
use sound::in_turn::end_of;
use table::MBR;

#[tactic(auto, using(sound::proofs::Walk::and_true), unfolding(base::specs::All::allb))]
fn good_primaries(h: MBRHeader, disk: u32) -> bool
    ensures { result ≡ allb (primaryb disk) (primaries h) }
{
    good_primary(h.partition_1, disk)
        && good_primary(h.partition_2, disk)
        && good_primary(h.partition_3, disk)
        && good_primary(h.partition_4, disk)
}

#[tactic(auto, using(sound::proofs::Walk::and_true), unfolding(base::specs::All::allb, sound::specs::Is::pairsb))]
fn good_pairs(h: MBRHeader) -> bool
    ensures { result ≡ pairsb pairb (primaries h) }
{
    good_pair(h.partition_1, h.partition_2)
        && good_pair(h.partition_1, h.partition_3)
        && good_pair(h.partition_1, h.partition_4)
        && good_pair(h.partition_2, h.partition_3)
        && good_pair(h.partition_2, h.partition_4)
        && good_pair(h.partition_3, h.partition_4)
}

// One logical partition after the other: each ends by the next EBR, so that EBRs ascend, and the last by the extended end.
#[tactic(auto, using(sound::proofs::Walk::row_again, sound::proofs::Walk::row_stop, sound::proofs::Walk::row_end))]
fn good_rows(t: MBR, from: u32, hi: u64) -> bool
    requires { t.count ≤ most }
    ensures { result ≡ rowsb hi true from (logicals t) }
{
    let mut end = from as u64;
    for (i, l) in t.logical_partitions[..t.count].iter().enumerate() {
        if !stands(*l, i == 0, end, hi) {
            return false;
        }
        end = ends_at(*l);
    }
    end <= hi
}

// No logical partitions without an extended entry.
#[tactic(auto, using(sound::proofs::Walk::chain_none), unfolding(sound::specs::Walk::chainb))]
fn good_chain(t: MBR) -> bool
    requires { t.count ≤ most }
    ensures { result ≡ chainb (extended_of (primaries t.header)) (logicals t) }
{
    match t.header.get_extended_partition() {
        None => t.count == 0,
        Some(e) => good_rows(t, e.starting_lba, end_of(e)),
    }
}

fn is_signed(h: MBRHeader) -> bool
    ensures { result ≡ stands_at h.boot_signature 0 signature }
{
    h.boot_signature == base::SIGNATURE
}

// The test on a table whose count is no greater than its capacity: for the crates above.
#[tactic(auto, using(sound::proofs::Walk::sound_parts))]
pub fn is_sound(t: MBR) -> bool
    requires { t.count ≤ most }
    ensures { result ≡ soundb (contents_of t) }
{
    is_signed(t.header)
        && good_primaries(t.header, t.disk_size)
        && good_pairs(t.header)
        && good_chain(t)
}
