// Extracts and the listing, on numbers and lent bytes.
ghost use Rattle.std.specs.Prelude.{◌≡◌, length};
ghost use Rattle.base.specs.Said.{gives, failure};
ghost use Rattle.abi_word.specs.Packed.{packed_option, status, packed};
ghost use Rattle.abi_extract.specs.Place.{looked_place};
ghost use Rattle.extract.specs.Answers.{look_says, check_says};
ghost use Rattle.read_table.specs.Wanted.{wanted_says};
ghost use Rattle.extract_lay.specs.Answers.{lay_says, lay_leaves};
ghost use Rattle.base.specs.Put.{put};
ghost use Rattle.base.specs.Checks.{answer, checked};
ghost use Rattle.read_listing.specs.Listing.{listing_checks, listing};

// Where the record of a sector stands in the extract; 255 in the upper half if it is absent or refused.
#[unsafe(no_mangle)]
pub extern "C" fn cv_look_up(x: &[u8], lba: u32) -> u64
    ensures { result ≡ packed_option (gives (looked_place x.now lba)) }
{
    abi_extract::cv_look_up(x, lba)
}

// What looking up says: 0, 1 or 2.
#[unsafe(no_mangle)]
pub extern "C" fn cv_look_up_answer(x: &[u8], lba: u32) -> u8
    ensures { result ≡ status (look_says x.now lba) }
{
    abi_extract::cv_look_up_answer(x, lba)
}

// What the rules of an extract say: 0 or 1.
#[unsafe(no_mangle)]
pub extern "C" fn cv_extract_check(x: &[u8]) -> u8
    ensures { result ≡ status (failure (check_says x.now)) }
{
    abi_extract::cv_extract_check(x)
}

// The sector that reading looks at first and the extract has no record for; 1, and 255 in the upper half for none.
#[unsafe(no_mangle)]
pub extern "C" fn cv_wanted(x: &[u8]) -> u64
    ensures { result ≡ packed_option (wanted_says x.now) }
{
    abi_extract::cv_wanted(x)
}

// Lays a record over an extract: the new one's length; 1, 2, 22, 19.
#[unsafe(no_mangle)]
pub extern "C" fn cv_lay_over(x: &[u8], lba: u32, sector: &[u8], out: &mut [u8]) -> u64
    ensures said { result ≡ packed (lay_says x.now lba sector.now (length out.old)) }
    ensures left { out.new ≡ lay_leaves x.now lba sector.now out.old }
{
    abi_extract::cv_lay_over(x, lba, sector, out)
}

// The listing of the table that an extract reads as, or its refusal, as text: its length; 19.
#[unsafe(no_mangle)]
pub extern "C" fn cv_listing(x: &[u8], out: &mut [u8]) -> u64
    ensures value { result ≡ packed (answer (listing_checks (length out.old)) (length (listing x.now))) }
    ensures out_after { out.new ≡ checked (listing_checks (length out.old)) (λ _. out.old) (put out.old 0 (listing x.now)) }
{
    abi_extract::cv_listing(x, out)
}
