// The tags of a block that has its length.
ghost use Rattle.std.specs.Prelude.{◌≡◌, ◌+◌, ◌*◌, ◌/◌, ◌%◌, ◌≤◌, length};
ghost use Rattle.base.specs.Bytes.{bytes_at, number, little};
ghost use Rattle.table.specs.Table.{most};
ghost use Rattle.block.specs.Block.{tagged, block_length};

use block::TAGS_OFFSET;
use table::LOGICALS;

// The tags of a word, which are tested at once.
const WORD: usize = 8;

// The whole words of tags.
const WORDS: usize = LOGICALS / WORD;

// The tags in them.
const IN_WORDS: usize = WORD * WORDS;

// The bits that no tag has, in each byte of a word.
const IMPOSSIBLE: u64 = 0xFCFCFCFCFCFCFCFC;

// The little-endian number in the eight bytes from index `at` on.
fn get64(s: &[u8], at: usize) -> u64
    requires { at + 8 ≤ length s.now }
    ensures { result ≡ number little (bytes_at s.now at 8) }
{
    let low = base::get32(s, at);
    let high = base::get32(s, at + 4);
    low as u64 + high as u64 * 4294967296
}

// Are the tags in whole words at most 3? Each word is laid over those before it.
fn words_tagged(b: &[u8]) -> bool
    requires { length b.now ≡ block_length }
    ensures { result ≡ tagged b.now 0 (8 * (most / 8)) }
{
    let mut all: u64 = 0;
    // By number: eight tags are one word of the block, read at its place; tag by tag misses the bar of speed.
    for i in 0..WORDS {
        all |= get64(b, TAGS_OFFSET + WORD * i);
    }
    all & IMPOSSIBLE == 0
}

// Are the tags behind the last whole word at most 3?
fn rest_tagged(b: &[u8]) -> bool
    requires { length b.now ≡ block_length }
    ensures { result ≡ tagged b.now (8 * (most / 8)) (most % 8) }
{
    // By number: a tag is one of those behind the whole words, and the loop before counts words; a slice would be no plainer.
    for i in IN_WORDS..LOGICALS {
        if 3 < b[TAGS_OFFSET + i] {
            return false;
        }
    }
    true
}

// Are all tags at most 3?
pub fn all_tagged(b: &[u8]) -> bool
    requires { length b.now ≡ block_length }
    ensures { result ≡ tagged b.now 0 most }
{
    words_tagged(b) && rest_tagged(b)
}
