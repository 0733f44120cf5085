// A table for the disk of an extract: a new one, or a given one put on it.
// Scope: module 5 (`new_from`, `update_from`: sector size, D). Rules: N.
// For callers: `new_from`, `update_from`.
#![tactic(auto)]

ghost use Rattle.std.specs.Prelude.{◌≡◌};
ghost use Rattle.base.specs.Said.{answered, refusal, failure, value_or};
ghost use Rattle.table_new.specs.Disk.{new_table, new_says, update_says};

use base::Refusal;
use record_mbr::MBRHeader;
use table::{LogicalPartition, MBR};

#[tactic(auto, unfolding(crate::specs::Disk::new_table))]
fn new_table(size: u32, disk: u32, disk_signature: [u8; 4]) -> MBR
    ensures { result ≡ new_table size disk disk_signature }
{
    let header = MBRHeader::new(disk_signature);
    let none = LogicalPartition::empty();
    let slots = [none; table::LOGICALS];
    MBR {
        sector_size: size,
        header: header,
        logical_partitions: slots,
        count: 0,
        align: MBR::DEFAULT_ALIGN,
        cylinders: 0,
        heads: 0,
        sectors: 0,
        disk_size: disk,
    }
}

// A new table for the disk of an extract: 1.
#[tactic(auto, unfolding(crate::specs::Disk::new_says))]
pub fn new_from(x: &[u8], disk_signature: [u8; 4]) -> Result<MBR, Refusal>
    ensures { answered result ≡ new_says x.now disk_signature }
{
    let e = extract::check(x)?;
    Ok(new_table(e.sector_size, e.disk_size, disk_signature))
}

// Puts a table on the disk of an extract: 6, 1; if refused, the table stays.
#[tactic(auto, using(base::proofs::Tests::tests), unfolding(crate::specs::Disk::update_says))]
pub fn update_from(t: &mut MBR, x: &[u8]) -> Result<(), Refusal>
    ensures answer_value { refusal result ≡ failure (update_says t.old x.now) }
    ensures table_value { t.new ≡ value_or t.old (update_says t.old x.now) }
{
    if table::LOGICALS < t.count {
        return Err(Refusal::TooManyLogicals);
    }
    let disk = extract::check(x)?;
    t.sector_size = disk.sector_size;
    t.disk_size = disk.disk_size;
    Ok(())
}
