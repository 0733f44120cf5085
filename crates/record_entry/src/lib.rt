// A partition entry: flag, first CHS, type, last CHS, start, sectors.
// Scope: Records (Entry: used, extended types, the flag 00 or 80); module 2. Rules: E.
// For callers: `MBRPartitionEntry` with `empty`, `is_used`, `is_unused`, `is_extended`, `is_active`, `check`.
#![tactic(auto)]

pub mod reader;
pub mod writer;

ghost use Rattle.std.specs.Prelude.{◌≡◌};
ghost use Rattle.record_entry.specs.Entry.{no_entry, flag_ok, used, unused, extended, active};

use record_chs::CHS;

pub const BOOT_ACTIVE: u8 = 0x80;

pub const BOOT_INACTIVE: u8 = 0x00;

#[derive(Clone, Copy, Debug, PartialEq, Eq)]
pub struct MBRPartitionEntry {
    pub boot: u8,
    pub first_chs: CHS,
    pub sys: u8,
    pub last_chs: CHS,
    pub starting_lba: u32,
    pub sectors: u32,
}

impl MBRPartitionEntry {
    pub fn empty() -> MBRPartitionEntry
        ensures { result ≡ no_entry }
    {
        MBRPartitionEntry {
            boot: BOOT_INACTIVE,
            first_chs: CHS::empty(),
            sys: 0,
            last_chs: CHS::empty(),
            starting_lba: 0,
            sectors: 0,
        }
    }

    pub fn is_used(self) -> bool
        ensures { result ≡ used self.sys }
    {
        self.sys != 0
    }

    pub fn is_unused(self) -> bool
        ensures { result ≡ unused self.sys }
    {
        self.sys == 0
    }

    pub fn is_extended(self) -> bool
        ensures { result ≡ extended self.sys }
    {
        matches!(self.sys, 0x05 | 0x0F | 0x85 | 0xC5 | 0xD5)
    }

    pub fn is_active(self) -> bool
        ensures { result ≡ active self }
    {
        self.boot == BOOT_ACTIVE
    }

    // The flag rule: 00 or 80.
    pub fn check(self) -> bool
        ensures { result ≡ flag_ok self }
    {
        matches!(self.boot, BOOT_INACTIVE | BOOT_ACTIVE)
    }
}
