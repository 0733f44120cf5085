// An answer as one number of 64 bits, for programs in C and Rust.
// Scope: none, it is ours: the value in the lower 32 bits, or the refusal's number in the upper 32. Rules: Z.
// For our crates: `status`, `word`, `length_word`, `option_word`, `bool_word`; `upper`, `NOTHING`.
#![tactic(auto)]

ghost use Rattle.std.specs.Prelude.{◌≡◌, ◌*◌};
ghost use Rattle.base.specs.Said.{refusal_code, answered, refusal};
ghost use Rattle.abi_word.specs.Packed.{upper, packed, packed_option, packed_bool, status};

use base::Refusal;

// Nothing, where a refusal's number would stand.
pub const NOTHING: u8 = 255;

// A refusal's number in the upper half.
pub fn upper(k: u8) -> u64
    ensures { result ≡ upper k }
{
    k as u64 * 4294967296
}

// A refusal: its number in the upper half.
pub fn refused(r: Refusal) -> u64
    ensures { result ≡ upper (refusal_code r) }
{
    upper(r.number())
}

// A refusal's number, or 0.
pub fn status(r: Result<(), Refusal>) -> u8
    ensures { result ≡ status (refusal r) }
{
    match r {
        Ok(()) => 0,
        Err(k) => k.number(),
    }
}

// A value, or a refusal.
pub fn word(r: Result<u32, Refusal>) -> u64
    ensures { result ≡ packed (answered r) }
{
    match r {
        Ok(v) => v as u64,
        Err(k) => refused(k),
    }
}

// A length or a count, or a refusal.
pub fn length_word(r: Result<usize, Refusal>) -> u64
    ensures { result ≡ packed (answered r) }
{
    match r {
        Ok(n) => n as u64,
        Err(k) => refused(k),
    }
}

// A value, nothing, or a refusal.
pub fn option_word(r: Result<Option<u32>, Refusal>) -> u64
    ensures { result ≡ packed_option (answered r) }
{
    match r {
        Ok(Some(v)) => v as u64,
        Ok(None) => upper(NOTHING),
        Err(k) => refused(k),
    }
}

// Yes 1, no 0, or a refusal.
pub fn bool_word(r: Result<bool, Refusal>) -> u64
    ensures { result ≡ packed_bool (answered r) }
{
    match r {
        Ok(yes) => yes as u64,
        Err(k) => refused(k),
    }
}
