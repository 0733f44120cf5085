// Addresses, types and a lone slot, on numbers and lent bytes.
ghost use Rattle.std.specs.Prelude.{◌≡◌, [], ◌∷◌};
ghost use Rattle.record_chs.specs.Chs.{exact, aligned, chs, lba_of, is_valid, chs_bytes, chs_of};
ghost use Rattle.abi_address.specs.Chs.{packed_chs};
ghost use Rattle.abi_word.specs.Packed.{packed, status};
ghost use Rattle.base.specs.Bytes.{number, little};
ghost use Rattle.base.specs.Said.{gives, failure};
ghost use Rattle.record_entry.specs.Entry.{extended};
ghost use Rattle.table_push.specs.Answers.{geometry_in};
ghost use Rattle.abi_address.specs.Slot.{slot_says, slot_after};

// The address of a sector; 7, 13, 14.
#[unsafe(no_mangle)]
pub extern "C" fn cv_chs_from_lba_exact(lba: u32, cylinders: u16, heads: u8, sectors: u8) -> u64
    ensures { result ≡ packed_chs (exact lba cylinders heads sectors) }
{
    abi_address::cv_chs_from_lba_exact(lba, cylinders, heads, sectors)
}

// The cylinder that begins at a sector, or the next one; 7, 13, 14.
#[unsafe(no_mangle)]
pub extern "C" fn cv_chs_from_lba_aligned(lba: u32, cylinders: u16, heads: u8, sectors: u8) -> u64
    ensures { result ≡ packed_chs (aligned lba cylinders heads sectors) }
{
    abi_address::cv_chs_from_lba_aligned(lba, cylinders, heads, sectors)
}

// The sector of an address; 7.
#[unsafe(no_mangle)]
pub extern "C" fn cv_chs_to_lba(cylinder: u16, head: u8, sector: u8, heads: u8, sectors: u8) -> u64
    ensures { result ≡ packed (lba_of (chs cylinder head sector) heads sectors) }
{
    abi_address::cv_chs_to_lba(cylinder, head, sector, heads, sectors)
}

// Whether an address is valid for a geometry.
#[unsafe(no_mangle)]
pub extern "C" fn cv_chs_is_valid(
    cylinder: u16,
    head: u8,
    sector: u8,
    cylinders: u16,
    heads: u8,
    sectors: u8,
) -> bool
    ensures { result ≡ is_valid (chs cylinder head sector) cylinders heads sectors }
{
    abi_address::cv_chs_is_valid(cylinder, head, sector, cylinders, heads, sectors)
}

// The three bytes of an address as a number, little-endian; higher bits are dropped.
#[unsafe(no_mangle)]
pub extern "C" fn cv_chs_to_bytes(cylinder: u16, head: u8, sector: u8) -> u32
    ensures { result ≡ number little (chs_bytes (chs cylinder head sector)) }
{
    abi_address::cv_chs_to_bytes(cylinder, head, sector)
}

// The address in three bytes.
#[unsafe(no_mangle)]
pub extern "C" fn cv_chs_from_bytes(one: u8, two: u8, three: u8) -> u64
    ensures { result ≡ packed_chs (gives (chs_of (one ∷ two ∷ three ∷ []))) }
{
    abi_address::cv_chs_from_bytes(one, two, three)
}

// Whether a type is an extended partition's.
#[unsafe(no_mangle)]
pub extern "C" fn cv_is_extended(sys: u8) -> bool
    ensures { result ≡ extended sys }
{
    abi_address::cv_is_extended(sys)
}

// Alters the four addresses of the partition in a lent slot: 101, 102, 7, 13, 14.
#[unsafe(no_mangle)]
pub extern "C" fn cv_update_chs(slot: &mut [u8], cylinders: u16, heads: u8, sectors: u8) -> u8
    ensures said { result ≡ status (failure (slot_says (geometry_in cylinders heads sectors) slot.old)) }
    ensures left { slot.new ≡ slot_after slot.old (slot_says (geometry_in cylinders heads sectors) slot.old) }
{
    abi_address::slot_chs::cv_update_chs(slot, cylinders, heads, sectors)
}
