// A logical partition and what it is made of, written as parts of a block.
ghost use Rattle.std.specs.Prelude.{◌≡◌, ◌+◌, ◌≤◌, length};
ghost use Rattle.base.specs.Put.{put};
ghost use Rattle.block.specs.Block.{chs_part, entry_part, sectors_part, last_part, slot_front, slot_part, entry_length, slot_length};

use block::{SLOT_CODE, SLOT_MARK};
use record_chs::CHS;
use record_entry::MBRPartitionEntry;
use table::LogicalPartition;

fn put_chs(d: &mut [u8], at: usize, c: CHS)
    requires { at + 4 ≤ length d.old }
    ensures { d.new ≡ put d.old at (chs_part c) }
{
    base::put16(d, at, c.cylinder);
    base::put8(d, at + 2, c.head);
    base::put8(d, at + 3, c.sector);
}

pub fn put_entry(d: &mut [u8], at: usize, e: MBRPartitionEntry)
    requires { at + entry_length ≤ length d.old }
    ensures { d.new ≡ put d.old at (entry_part e) }
{
    base::put8(d, at, e.boot);
    put_chs(d, at + 1, e.first_chs);
    base::put8(d, at + 5, e.sys);
    put_chs(d, at + 6, e.last_chs);
    base::put32(d, at + 10, e.starting_lba);
    base::put32(d, at + 14, e.sectors);
}

// A number of sectors; zeros for an absent one.
fn put_sectors(d: &mut [u8], at: usize, m: Option<u32>)
    requires { at + 4 ≤ length d.old }
    ensures { d.new ≡ put d.old at (sectors_part m) }
{
    base::put32(d, at, m.unwrap_or(0));
}

// An address; zeros for an absent one.
fn put_last(d: &mut [u8], at: usize, m: Option<CHS>)
    requires { at + 4 ≤ length d.old }
    ensures { d.new ≡ put d.old at (last_part m) }
{
    put_chs(d, at, m.unwrap_or(CHS::empty()));
}

// The 34 bytes of a logical partition before its code.
fn put_slot_front(d: &mut [u8], at: usize, l: LogicalPartition)
    requires { at + 34 ≤ length d.old }
    ensures { d.new ≡ put d.old at (slot_front l) }
{
    put_entry(d, at, l.partition);
    base::put32(d, at + 18, l.absolute_ebr_lba.0);
    put_sectors(d, at + 22, l.ebr_sectors);
    put_chs(d, at + 26, l.ebr_first_chs);
    put_last(d, at + 30, l.ebr_last_chs);
}

// A logical partition's slot.
pub fn put_slot(d: &mut [u8], at: usize, l: LogicalPartition)
    requires { at + slot_length ≤ length d.old }
    ensures { (d.new ≡ put d.old at (slot_part l)) × (length (slot_part l) ≡ slot_length) }
{
    put_slot_front(d, at, l);
    base::copy_in(d, at + SLOT_CODE, &l.kept.bootstrap_code);
    base::copy_in(d, at + SLOT_MARK, &l.kept.mark);
}
