// CHS addresses: cylinder, head, sector; from a sector, to a sector, as three bytes.
// Scope: Records (CHS bytes); module 1. Rules: C.
// For callers: `CHS::new`, `empty`, `from_lba_exact`, `from_lba_aligned`, `to_lba`, `is_valid`, `of_bytes`, `to_bytes`.
#![tactic(auto)]

pub mod three_bytes;

ghost use Rattle.std.specs.Prelude.{◌≡◌, ◌+◌, ◌*◌, ◌-◌, ◌/◌, ◌≤◌, ◌<◌, ◌%◌};
ghost use Rattle.base.specs.Said.{answered};
ghost use Rattle.record_chs.specs.Chs.{chs, no_chs, chs_of, chs_bytes, address_of, next_cylinder, behind_lba, exact, aligned, lba_of, is_empty, is_valid};

use base::Refusal;

#[derive(Clone, Copy, Debug, PartialEq, Eq)]
pub struct CHS {
    pub cylinder: u16,
    pub head: u8,
    pub sector: u8,
}

// The sectors of a cylinder.
fn cylinder_size(heads: u8, sectors: u8) -> u32
    ensures { (result ≡ heads * sectors) × (result ≤ 65025) }
{
    heads as u32 * sectors as u32
}

// The address of a sector whose cylinder fits.
fn address_of(lba: u32, heads: u8, sectors: u8) -> CHS
    requires { (heads * sectors ≡ 0 → ⊥) × (lba / (heads * sectors) ≤ 1023) }
    ensures { result ≡ address_of lba heads sectors }
{
    let h = heads as u32;
    let s = sectors as u32;
    let size = h * s;
    let rem = lba % size;
    CHS {
        cylinder: (lba / size) as u16,
        head: (rem / s) as u8,
        sector: (rem % s + 1) as u8,
    }
}

// The sum before the minus one.
fn behind_lba(c: CHS, heads: u8, sectors: u8) -> u32
    ensures { result ≡ behind_lba c heads sectors }
{
    let size = cylinder_size(heads, sectors);
    let track = cylinder_size(c.head, sectors);
    c.cylinder as u32 * size + track + c.sector as u32
}

impl CHS {
    pub fn new(cylinder: u16, head: u8, sector: u8) -> CHS
        ensures { result ≡ chs cylinder head sector }
    {
        CHS {
            cylinder,
            head,
            sector,
        }
    }

    pub fn empty() -> CHS
        ensures { result ≡ no_chs }
    {
        CHS {
            cylinder: 0,
            head: 0,
            sector: 0,
        }
    }

    pub fn from_lba_exact(lba: u32, cylinders: u16, heads: u8, sectors: u8) -> Result<CHS, Refusal>
        ensures { answered result ≡ exact lba cylinders heads sectors }
    {
        let size = cylinder_size(heads, sectors);
        if size == 0 {
            return Err(Refusal::Arithmetic);
        }
        let cylinder = lba / size;
        if 1023 < cylinder {
            return Err(Refusal::LBAExceedsMaximumCHS);
        }
        if (cylinders as u32) < cylinder {
            return Err(Refusal::LBAExceedsMaximumCylinders);
        }
        Ok(address_of(lba, heads, sectors))
    }

    pub fn from_lba_aligned(
        lba: u32,
        cylinders: u16,
        heads: u8,
        sectors: u8,
    ) -> Result<CHS, Refusal>
        ensures { answered result ≡ aligned lba cylinders heads sectors }
    {
        if lba == 0 {
            return Err(Refusal::Arithmetic);
        }
        let step = cylinder_size(heads, sectors);
        if step == 0 {
            return Err(Refusal::Arithmetic);
        }
        let next = (lba - 1) / step + 1;
        if 1023 < next {
            return Err(Refusal::LBAExceedsMaximumCHS);
        }
        if (cylinders as u32) < next {
            return Err(Refusal::LBAExceedsMaximumCylinders);
        }
        Ok(CHS {
            cylinder: next as u16,
            head: 0,
            sector: 1,
        })
    }

    pub fn to_lba(self, heads: u8, sectors: u8) -> Result<u32, Refusal>
        ensures { answered result ≡ lba_of self heads sectors }
    {
        let behind = behind_lba(self, heads, sectors);
        if behind == 0 {
            return Err(Refusal::Arithmetic);
        }
        Ok(behind - 1)
    }

    pub fn is_empty(self) -> bool
        ensures { result ≡ is_empty self }
    {
        self.cylinder == 0 && self.head == 0 && self.sector == 0
    }

    pub fn is_valid(self, cylinders: u16, heads: u8, sectors: u8) -> bool
        ensures { result ≡ is_valid self cylinders heads sectors }
    {
        self.sector != 0 && self.sector <= sectors && self.head < heads && self.cylinder < cylinders
    }

    // The address in three bytes.
    pub fn of_bytes(b: [u8; 3]) -> CHS
        ensures { result ≡ chs_of b }
    {
        CHS {
            cylinder: b[1] as u16 / 64 * 256 + b[2] as u16,
            head: b[0],
            sector: b[1] % 64,
        }
    }

    // The three bytes; higher bits are dropped.
    pub fn to_bytes(self) -> [u8; 3]
        ensures { result ≡ chs_bytes self }
    {
        [
            self.head,
            (self.cylinder / 256 % 4) as u8 * 64 + self.sector % 64,
            (self.cylinder % 256) as u8,
        ]
    }
}
