// The alignment of a table: found from its used starts.
// Scope: Reading (Alignment); module 4. Rules: A.
// For callers: `find_alignment`; for our crates `used_starts::alignment_of`.
#![tactic(auto)]

mod divisor;
pub mod used_starts;

ghost use Rattle.std.specs.Prelude.{◌≡◌, [], ◌∷◌, ◌<◌, Some};
ghost use Rattle.base.specs.Said.{answered};
ghost use Rattle.table.specs.Table.{greatest_align};
ghost use Rattle.read_align.specs.Align.{divisor_to, alignment};
ghost use Rattle.read_align.specs.Divisor.{SameDivisors};

use base::Refusal;
use table::MBR;

// The most starts: those of four primary and all logical partitions.
pub const STARTS: usize = 4 + table::LOGICALS;

// The greatest common divisor of all starts; 0 if all are zero. It begins with 0, which every number divides.
fn common_divisor(starts: &[u32]) -> u32
    ensures { SameDivisors result starts.now }
{
    let mut g = 0;
    for s in starts {
        g = crate::divisor::gcd(*s, g);
    }
    g
}

// The largest divisor up to 16,384: the number itself, if it is not above.
fn largest_divisor(n: u32) -> u32
    requires { 0 < n }
    ensures { divisor_to greatest_align (n ∷ []) ≡ Some result }
{
    if n <= MBR::MAX_ALIGN {
        return n;
    }
    // no `find` over the numbers downwards: it would answer an Option that is never None
    let mut k = MBR::MAX_ALIGN;
    while n % k != 0 {
        k -= 1;
    }
    k
}

// The alignment of used starts: the largest divisor up to 16,384 of their greatest common divisor; 7 where all are zero.
pub fn find_alignment(starts: &[u32]) -> Result<u32, Refusal>
    ensures { answered result ≡ alignment starts.now }
{
    if starts.is_empty() {
        return Ok(MBR::DEFAULT_ALIGN);
    }
    let g = common_divisor(starts);
    if g == 0 {
        return Err(Refusal::Arithmetic);
    }
    Ok(largest_divisor(g))
}
