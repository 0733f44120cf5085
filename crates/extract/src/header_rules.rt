// The rules of an extract's header.
ghost use Rattle.std.specs.Prelude.{◌≡◌, ◌+◌, ◌*◌, ◌<◌};
ghost use Rattle.extract.specs.Rules.{size_ok, word_checks};
ghost use Rattle.base.specs.Said.{refusal};
ghost use Rattle.base.specs.Checks.{first-fail};

use base::Refusal;

// Is it a power of two from 512 to 4,096?
pub fn size_ok(size: u32) -> bool
    ensures { result ≡ size_ok size }
{
    (512..=4096).contains(&size) && size.count_ones() == 1
}

// The rules of the header's words, in their order, for a lent length.
pub fn header_rules(
    long: usize,
    size: u32,
    n: usize,
    list: usize,
    records: usize,
    total: usize,
) -> Result<(), Refusal>
    ensures { refusal result ≡ first-fail (word_checks long size n list records total) }
{
    if !size_ok(size) {
        return Err(Refusal::BadExtract);
    }
    if crate::RECORDS < n {
        return Err(Refusal::BadExtract);
    }
    if list != 24 {
        return Err(Refusal::BadExtract);
    }
    if records != 24 + n * 4 {
        return Err(Refusal::BadExtract);
    }
    if total != 24 + n * 516 {
        return Err(Refusal::BadExtract);
    }
    if total != long {
        return Err(Refusal::BadExtract);
    }
    Ok(())
}
