// The table block: a table as bytes at fixed offsets, for callers that hold no struct of ours; its layout, its laws.
// Scope: none, it is ours. Rules: Z.
// For our crates: `BLOCK`, its length, `slot_at`, `tag_at`; all else is definitions.
#![tactic(auto)]

ghost use Rattle.std.specs.Prelude.{◌≡◌, ◌<◌};
ghost use Rattle.table.specs.Table.{most};
ghost use Rattle.block.specs.Block.{slot_start, tag_start};

use record_ebr::MARK;
use table::LOGICALS;

// The bytes of an entry.
pub const ENTRY: usize = 18;

// The bytes of a header: code, disk signature and copy mark; the entries; the signature.
pub const HEADER: usize = 446 + 4 * ENTRY + 2;

// Where the code of a slot stands, behind the entry and the link's four fields, and where its mark does.
pub const SLOT_CODE: usize = ENTRY + 16;

pub const SLOT_MARK: usize = SLOT_CODE + 446;

// The bytes of a slot.
pub const SLOT: usize = SLOT_MARK + MARK;

// Where the slots begin: behind the front of 20 bytes and the header.
pub const SLOTS_OFFSET: usize = 20 + HEADER;

// Where the tags begin.
pub const TAGS_OFFSET: usize = SLOTS_OFFSET + SLOT * LOGICALS;

// The bytes of a block.
pub const BLOCK: usize = TAGS_OFFSET + LOGICALS;

// Where slot i stands.
pub fn slot_at(i: usize) -> usize
    requires { i < most }
    ensures { result ≡ slot_start i }
{
    SLOTS_OFFSET + SLOT * i
}

// Where its tag stands.
pub fn tag_at(i: usize) -> usize
    requires { i < most }
    ensures { result ≡ tag_start i }
{
    TAGS_OFFSET + i
}
