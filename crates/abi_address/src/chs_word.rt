// An address as one number for programs in C and Rust.
ghost use Rattle.std.specs.Prelude.{◌≡◌};
ghost use Rattle.base.specs.Said.{answered};
ghost use Rattle.abi_address.specs.Chs.{packed_chs, chs_word};

use base::Refusal;
use record_chs::CHS;

pub fn of_chs(c: CHS) -> u64
    ensures { result ≡ chs_word c }
{
    c.cylinder as u64 * 65536 + c.head as u64 * 256 + c.sector as u64
}

pub fn of_placed(p: Result<CHS, Refusal>) -> u64
    ensures { result ≡ packed_chs (answered p) }
{
    match p {
        Ok(c) => of_chs(c),
        Err(refused) => abi_word::refused(refused),
    }
}
