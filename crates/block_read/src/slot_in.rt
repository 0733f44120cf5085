// A logical partition and what it is made of, read from parts of a block.
ghost use Rattle.std.specs.Prelude.{◌≡◌, ◌+◌, ◌≤◌, ◌<◌, length};
ghost use Rattle.table.specs.Table.{most};
ghost use Rattle.block.specs.Block.{part, chs_in, entry_from, sectors_in, last_chs_in, slot_of, entry_length, slot_length, slot_at, tag_at, block_length};

use block::{SLOT, SLOT_CODE, SLOT_MARK};
use record_chs::CHS;
use record_entry::MBRPartitionEntry;
use table::{DiskLba, LogicalPartition};

// The n bytes from index `at` on.
pub fn part_of<'a>(b: &'a [u8], at: usize, n: usize) -> &'a [u8]
    requires { at + n ≤ length b.now }
    ensures { (result.now ≡ part b.now at n) × (length result.now ≡ n) }
{
    &b[at..at + n]
}

fn get_chs(s: &[u8], at: usize) -> CHS
    requires { at + 4 ≤ length s.now }
    ensures { result ≡ chs_in s.now at }
{
    CHS {
        cylinder: base::get16(s, at),
        head: s[at + 2],
        sector: s[at + 3],
    }
}

pub fn get_entry(s: &[u8], at: usize) -> MBRPartitionEntry
    requires { at + entry_length ≤ length s.now }
    ensures { result ≡ entry_from s.now at }
{
    MBRPartitionEntry {
        boot: s[at],
        first_chs: get_chs(s, at + 1),
        sys: s[at + 5],
        last_chs: get_chs(s, at + 6),
        starting_lba: base::get32(s, at + 10),
        sectors: base::get32(s, at + 14),
    }
}

// A number of sectors, if a slot's tag has it.
fn get_sectors(s: &[u8], at: usize, tag: u8) -> Option<u32>
    requires { at + 4 ≤ length s.now }
    ensures { result ≡ sectors_in tag s.now at }
{
    if tag % 2 == 0 {
        return None;
    }
    Some(base::get32(s, at))
}

// An address, if a slot's tag has it.
fn get_last(s: &[u8], at: usize, tag: u8) -> Option<CHS>
    requires { at + 4 ≤ length s.now }
    ensures { result ≡ last_chs_in tag s.now at }
{
    if tag < 2 {
        return None;
    }
    Some(get_chs(s, at))
}

// The bytes of slot i of a block.
pub fn slot_bytes<'a>(b: &'a [u8], i: usize) -> &'a [u8]
    requires { (length b.now ≡ block_length) × (i < most) }
    ensures { (result.now ≡ slot_at b.now i) × (length result.now ≡ slot_length) }
{
    part_of(b, block::slot_at(i), SLOT)
}

// The logical partition in the bytes of a slot, by its tag.
pub fn get_slot(s: &[u8], tag: u8) -> LogicalPartition
    requires { slot_length ≤ length s.now }
    ensures { result ≡ slot_of tag s.now }
{
    LogicalPartition {
        partition: get_entry(s, 0),
        absolute_ebr_lba: DiskLba(base::get32(s, 18)),
        ebr_sectors: get_sectors(s, 22, tag),
        ebr_first_chs: get_chs(s, 26),
        ebr_last_chs: get_last(s, 30, tag),
        kept: record_ebr::kept_at(s, SLOT_CODE, SLOT_MARK),
    }
}

// The logical partition in slot i of a block.
pub fn slot_of(b: &[u8], i: usize) -> LogicalPartition
    requires { (length b.now ≡ block_length) × (i < most) }
    ensures { result ≡ slot_of (tag_at b.now i) (slot_at b.now i) }
{
    get_slot(slot_bytes(b, i), b[block::tag_at(i)])
}
