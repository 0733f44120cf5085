// The listing's lines of used entries.
ghost use Rattle.std.specs.Prelude.{◌≡◌, ◌+◌, ◌*◌, ◌≤◌, length};
ghost use Rattle.base.specs.Put.{put};
ghost use Rattle.record_mbr.specs.Mbr.{primaries};
ghost use Rattle.table.specs.Table.{logicals, parts, most};
ghost use Rattle.read_listing.specs.Lines.{entry_line, used_line, entry_lines};
ghost use Rattle.read_listing.specs.Listing.{line_room};

use record_entry::MBRPartitionEntry;
use record_mbr::MBRHeader;
use table::MBR;

// The line of an entry.
#[tactic(auto, using(crate::proofs::text::Text::ten))]
fn put_entry(d: &mut [u8], at: usize, n: u32, e: MBRPartitionEntry) -> usize
    requires { at + line_room ≤ length d.old }
    ensures { (result ≡ at + length (entry_line n e)) × (d.new ≡ put d.old at (entry_line n e)) × (result ≤ at + line_room) }
{
    let sys = crate::text::put_number(d, at, n);
    let boot = crate::text::put_hex(d, sys, e.sys);
    let start = crate::text::put_hex(d, boot, e.boot);
    let sectors = crate::text::put_spaced(d, start, e.starting_lba);
    let end = crate::text::put_spaced(d, sectors, e.sectors);
    base::put8(d, end, b'\n');
    end + 1
}

// The line of an entry that is used; nothing for one that is not.
fn put_used(d: &mut [u8], at: usize, n: u32, e: MBRPartitionEntry) -> usize
    requires { at + line_room ≤ length d.old }
    ensures { (result ≡ at + length (used_line n e)) × (d.new ≡ put d.old at (used_line n e)) × (result ≤ at + line_room) }
{
    if e.sys == 0 {
        return at;
    }
    put_entry(d, at, n, e)
}

// The lines of the used primary entries.
pub fn put_primaries(d: &mut [u8], at: usize, h: MBRHeader) -> usize
    requires { at + line_room * 4 ≤ length d.old }
    ensures { (result ≡ at + length (entry_lines 1 (primaries h))) × (d.new ≡ put d.old at (entry_lines 1 (primaries h))) × (result ≤ at + line_room * 4) }
{
    let at = put_used(d, at, 1, h.partition_1);
    let at = put_used(d, at, 2, h.partition_2);
    let at = put_used(d, at, 3, h.partition_3);
    put_used(d, at, 4, h.partition_4)
}

// The lines of the used logical partitions.
pub fn put_logicals(d: &mut [u8], at: usize, t: MBR) -> usize
    requires { (t.count ≤ most) × (at + line_room * most ≤ length d.old) }
    ensures { (result ≡ at + length (entry_lines 5 (parts (logicals t)))) × (d.new ≡ put d.old at (entry_lines 5 (parts (logicals t)))) }
{
    let mut end = at;
    for (i, l) in t.logical_partitions[..t.count].iter().enumerate() {
        end = put_used(d, end, 5 + i as u32, l.partition);
    }
    end
}
