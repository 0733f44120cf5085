// The checks of a block: whether a table can be read from it.
ghost use Rattle.std.specs.Prelude.{◌≡◌};
ghost use Rattle.base.specs.Said.{refusal};
ghost use Rattle.base.specs.Checks.{first-fail};
ghost use Rattle.block.specs.Block.{block_checks};

use base::Refusal;
use table::LOGICALS;

// Does a lent block hold a table? 101, 6, 102.
pub fn check(b: &[u8]) -> Result<(), Refusal>
    ensures { refusal result ≡ first-fail (block_checks b.now) }
{
    if b.len() != block::BLOCK {
        return Err(Refusal::BlockLength);
    }
    if (LOGICALS as u32) < base::get32(b, 12) {
        return Err(Refusal::TooManyLogicals);
    }
    if !crate::tags::all_tagged(b) {
        return Err(Refusal::BlockTag);
    }
    Ok(())
}
