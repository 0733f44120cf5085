// Extracts for programs in C and Rust: functions on numbers and lent bytes.
// Scope: The extract; the listing. Rules: Z. An answer is one number as in `abi_word`.
// For callers: `cv_extract_check`, `cv_look_up`, `cv_look_up_answer`, `cv_wanted`, `cv_lay_over`, `cv_listing`.
#![tactic(auto)]

pub mod record_place;

ghost use Rattle.std.specs.Prelude.{◌≡◌, length};
ghost use Rattle.base.specs.Put.{put};
ghost use Rattle.base.specs.Checks.{answer, checked};
ghost use Rattle.base.specs.Said.{gives, failure};
ghost use Rattle.extract.specs.Answers.{look_says, check_says};
ghost use Rattle.extract_lay.specs.Answers.{lay_says, lay_leaves};
ghost use Rattle.read_listing.specs.Listing.{listing_checks, listing};
ghost use Rattle.read_table.specs.Wanted.{wanted_says};
ghost use Rattle.abi_word.specs.Packed.{packed, status, packed_option};
ghost use Rattle.abi_extract.specs.Place.{looked_place};

// Where the record of a sector stands in the extract; none if it is absent or refused.
fn looked_up(x: &[u8], lba: u32) -> Option<u32>
    ensures { result ≡ looked_place x.now lba }
{
    let Ok(e) = extract::check(x) else {
        return None;
    };
    if e.disk_size <= lba {
        return None;
    }
    crate::record_place::place_of(x, e.count, lba)
}

// Where the record of a sector stands in the extract; 255 in the upper half if it is absent or refused.
pub fn cv_look_up(x: &[u8], lba: u32) -> u64
    ensures { result ≡ packed_option (gives (looked_place x.now lba)) }
{
    abi_word::option_word(Ok(looked_up(x, lba)))
}

// What looking up says: 0, 1 or 2.
pub fn cv_look_up_answer(x: &[u8], lba: u32) -> u8
    ensures { result ≡ status (look_says x.now lba) }
{
    abi_word::status(extract::look_up_record::look_up_answer(x, lba))
}

// What the rules of an extract say: 0 or 1.
pub fn cv_extract_check(x: &[u8]) -> u8
    ensures { result ≡ status (failure (check_says x.now)) }
{
    abi_word::status(extract::check(x).map(|_| ()))
}

// The sector that reading looks at first and the extract has no record for; 1, and 255 in the upper half for none.
pub fn cv_wanted(x: &[u8]) -> u64
    ensures { result ≡ packed_option (wanted_says x.now) }
{
    abi_word::option_word(read_table::wanted(x))
}

// Lays a record over an extract: the new one's length; 1, 2, 22, 19.
pub fn cv_lay_over(x: &[u8], lba: u32, sector: &[u8], out: &mut [u8]) -> u64
    ensures said { result ≡ packed (lay_says x.now lba sector.now (length out.old)) }
    ensures left { out.new ≡ lay_leaves x.now lba sector.now out.old }
{
    abi_word::length_word(extract_lay::over::lay_over(x, lba, sector, out))
}

// The listing of the table that an extract reads as, or its refusal, as text: its length; 19.
pub fn cv_listing(x: &[u8], out: &mut [u8]) -> u64
    ensures value { result ≡ packed (answer (listing_checks (length out.old)) (length (listing x.now))) }
    ensures out_after { out.new ≡ checked (listing_checks (length out.old)) (λ _. out.old) (put out.old 0 (listing x.now)) }
{
    abi_word::length_word(read_listing::listing(x, out))
}
