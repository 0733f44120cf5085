// The MBR record: a disk's first sector, read or written.
// Scope: Records (MBR: code, signature, copy mark, four entries, 55 AA; the first extended counts); module 2. Rules: M.
// For callers: `MBRHeader` with `new`, `check`, `get`, `get_extended_partition`; `reader::read`, `writer::write`.
#![tactic(auto)]

pub mod fields_read;
pub mod fields_written;
pub mod reader;
pub mod writer;

ghost use Rattle.std.specs.Prelude.{◌≡◌};
ghost use Rattle.base.specs.Said.{refusal};
ghost use Rattle.base.specs.Checks.{first-fail};
ghost use Rattle.record_mbr.specs.Mbr.{primaries, header_checks, new_header, extended_of, primary_of, marked, protected};

use base::Refusal;
use record_entry::MBRPartitionEntry;

#[derive(Clone, Copy)]
pub struct MBRHeader {
    pub bootstrap_code: [u8; 440],
    pub disk_signature: [u8; 4],
    pub copy_protected: [u8; 2],
    pub partition_1: MBRPartitionEntry,
    pub partition_2: MBRPartitionEntry,
    pub partition_3: MBRPartitionEntry,
    pub partition_4: MBRPartitionEntry,
    pub boot_signature: [u8; 2],
}

// The copy mark.
#[derive(Clone, Copy)]
pub enum Protection {
    No,
    Yes,
    Neither,
}

impl MBRHeader {
    pub fn new(disk_signature: [u8; 4]) -> MBRHeader
        ensures { result ≡ new_header disk_signature }
    {
        MBRHeader {
            bootstrap_code: [0u8; 440],
            disk_signature,
            copy_protected: [0u8; 2],
            partition_1: MBRPartitionEntry::empty(),
            partition_2: MBRPartitionEntry::empty(),
            partition_3: MBRPartitionEntry::empty(),
            partition_4: MBRPartitionEntry::empty(),
            boot_signature: base::SIGNATURE,
        }
    }

    // Signature 3, flags 4.
    pub fn check(self) -> Result<(), Refusal>
        ensures { refusal result ≡ first-fail (header_checks self) }
    {
        if !base::stands_at(&self.boot_signature, 0, &base::SIGNATURE) {
            return Err(Refusal::InvalidSignature);
        }
        if self.partition_1.check()
            && self.partition_2.check()
            && self.partition_3.check()
            && self.partition_4.check()
        {
            Ok(())
        } else {
            Err(Refusal::InvalidBootFlag)
        }
    }

    // The entry of a number from 1 to 4.
    pub fn get(self, i: usize) -> Option<MBRPartitionEntry>
        ensures { result ≡ primary_of self i }
    {
        match i {
            1 => Some(self.partition_1),
            2 => Some(self.partition_2),
            3 => Some(self.partition_3),
            4 => Some(self.partition_4),
            _ => None,
        }
    }

    // The first extended entry.
    #[tactic(auto, unfolding(crate::specs::Mbr::extended_of))]
    pub fn get_extended_partition(self) -> Option<MBRPartitionEntry>
        ensures { result ≡ extended_of (primaries self) }
    {
        if self.partition_1.is_extended() {
            Some(self.partition_1)
        } else if self.partition_2.is_extended() {
            Some(self.partition_2)
        } else if self.partition_3.is_extended() {
            Some(self.partition_3)
        } else if self.partition_4.is_extended() {
            Some(self.partition_4)
        } else {
            None
        }
    }

    pub fn is_copy_protected(self) -> Protection
        ensures { protected result ≡ marked self.copy_protected }
    {
        match self.copy_protected {
            [0x00, 0x00] => Protection::No,
            [0x5A, 0x5A] => Protection::Yes,
            _ => Protection::Neither,
        }
    }
}
