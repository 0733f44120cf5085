// The parts of a block: its front, its header, its slots.
ghost use Rattle.std.specs.Prelude.{◌≡◌, ◌<◌, ◌*◌, ◌^◌, length};
ghost use Rattle.base.specs.Put.{put};
ghost use Rattle.table.specs.Table.{most};
ghost use Rattle.block.specs.Block.{code_part, entries_part, header_part, front_part, slots_part, tags_part, slots_put, header_length, slot_length, block_length};

use block_slot::slot_out;
use record_mbr::MBRHeader;
use table::{LogicalPartition, MBR};

// Every slot, the unused ones too, and its tag.
pub fn put_slots(d: &mut [u8], ls: &[LogicalPartition])
    requires { (length d.old ≡ block_length) × (length ls.now ≡ most) }
    ensures { (d.new ≡ slots_put d.old ls.now) × (length (slots_part ls.now) ≡ slot_length * most) × (length (tags_part ls.now) ≡ most) }
{
    for (i, l) in ls.iter().enumerate() {
        block_slot::slot_put::put_into(d, i, *l);
    }
}

// Code, disk signature and copy mark of a header.
fn put_code(d: &mut [u8], h: MBRHeader)
    requires { length d.old ≡ block_length }
    ensures { (d.new ≡ put d.old 20 (code_part h)) × (length (code_part h) ≡ 446) }
{
    base::copy_in(d, 20, &h.bootstrap_code);
    base::copy_in(d, 460, &h.disk_signature);
    base::copy_in(d, 464, &h.copy_protected);
}

// The four entries of a header.
fn put_entries(d: &mut [u8], h: MBRHeader)
    requires { length d.old ≡ block_length }
    ensures { d.new ≡ put d.old 466 (entries_part h.partition_1 h.partition_2 h.partition_3 h.partition_4) }
{
    slot_out::put_entry(d, 466, h.partition_1);
    slot_out::put_entry(d, 484, h.partition_2);
    slot_out::put_entry(d, 502, h.partition_3);
    slot_out::put_entry(d, 520, h.partition_4);
}

// The signature of a header.
fn put_sign(d: &mut [u8], h: MBRHeader)
    requires { length d.old ≡ block_length }
    ensures { (d.new ≡ put d.old 538 h.boot_signature) × (length h.boot_signature ≡ 2) }
{
    base::copy_in(d, 538, &h.boot_signature);
}

// A header's bytes.
pub fn put_header(d: &mut [u8], h: MBRHeader)
    requires { length d.old ≡ block_length }
    ensures { (d.new ≡ put d.old 20 (header_part h)) × (length (header_part h) ≡ header_length) }
{
    put_code(d, h);
    put_entries(d, h);
    put_sign(d, h);
}

// The first 20 bytes.
pub fn put_front(d: &mut [u8], t: &MBR)
    requires { (length d.old ≡ block_length) × (t.now.count < 2 ^ 32) }
    ensures { d.new ≡ put d.old 0 (front_part t.now.sector_size t.now.disk_size t.now.align t.now.count t.now.cylinders t.now.heads t.now.sectors) }
{
    base::put32(d, 0, t.sector_size);
    base::put32(d, 4, t.disk_size);
    base::put32(d, 8, t.align);
    base::put32(d, 12, t.count as u32);
    base::put16(d, 16, t.cylinders);
    base::put8(d, 18, t.heads);
    base::put8(d, 19, t.sectors);
}
