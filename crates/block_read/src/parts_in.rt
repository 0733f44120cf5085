// The header, the slots and the whole table, read from a block that passes its checks.
ghost use Rattle.std.specs.Prelude.{◌≡◌, length};
ghost use Rattle.table.specs.Table.{most};
ghost use Rattle.block.specs.Block.{header_in, slots_in, table_in, header_length, block_length};

use crate::slot_in;
use block::HEADER;
use record_mbr::MBRHeader;
use table::{LOGICALS, LogicalPartition, MBR};

// Every slot, the unused ones too.
fn get_slots(b: &[u8]) -> [LogicalPartition; LOGICALS]
    requires { length b.now ≡ block_length }
    ensures { result ≡ slots_in b.now most }
{
    let mut ls = [LogicalPartition::empty(); LOGICALS];
    // By number: it is the slot's number in the block and in the list.
    for i in 0..LOGICALS {
        ls[i] = slot_in::slot_of(b, i);
    }
    ls
}

// The header in its bytes.
pub fn get_header(s: &[u8]) -> MBRHeader
    requires { length s.now ≡ header_length }
    ensures { result ≡ header_in s.now }
{
    MBRHeader {
        bootstrap_code: record_mbr::fields_read::code_of(s),
        disk_signature: [s[440], s[441], s[442], s[443]],
        copy_protected: [s[444], s[445]],
        partition_1: slot_in::get_entry(s, 446),
        partition_2: slot_in::get_entry(s, 464),
        partition_3: slot_in::get_entry(s, 482),
        partition_4: slot_in::get_entry(s, 500),
        boot_signature: [s[518], s[519]],
    }
}

// The header of the table in a block.
pub fn header_of(b: &[u8]) -> MBRHeader
    requires { length b.now ≡ block_length }
    ensures { result ≡ (table_in b.now).header }
{
    get_header(slot_in::part_of(b, 20, HEADER))
}

// The table in a block.
pub fn get_table(b: &[u8]) -> MBR
    requires { length b.now ≡ block_length }
    ensures { result ≡ table_in b.now }
{
    MBR {
        sector_size: base::get32(b, 0),
        header: header_of(b),
        logical_partitions: get_slots(b),
        count: base::get32(b, 12) as usize,
        align: base::get32(b, 8),
        cylinders: base::get16(b, 16),
        heads: b[18],
        sectors: b[19],
        disk_size: base::get32(b, 4),
    }
}
