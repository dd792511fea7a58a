// A lent byte area as rows of words: 0 is read past the end, and nothing is written there.
ghost use Rattle.std.specs.Prelude.{◌≡◌};
ghost use Rattle.rows.specs.Area.{byte_of, word_at, with_word, absent_word};

use crate::bits;
use frames::access::{at, put};
use store::limits::MODULES;

// Bytes of a word.
pub const WORD_BYTES: usize = 4;
// Bytes from a row to the next: room for a word for each module, and one more.
pub const ROW_BYTES: usize = WORD_BYTES * (MODULES as usize + 1);

// The word of a row that says which modules' sets have absent: it stands behind the modules' words, which are no more than a word has bits.
#[inline]
pub fn absent_word(modules: u16) -> u16
    ensures { result ≡ absent_word modules }
{
    bits::in_word(modules)
}

// Where a word of a row begins.
#[inline]
fn place_of(row: u16, word: u16) -> usize
    ensures { result ≡ byte_of row word }
{
    ROW_BYTES * row as usize + WORD_BYTES * word as usize
}

// A word of a row. One that lies whole in the area, as every word of a row that was written does, is read without asking byte by byte.
#[inline]
pub fn word_at(area: &[u8], row: u16, word: u16) -> u32
    ensures { result ≡ word_at area.now row word }
{
    let i = place_of(row, word);
    if i + 3 < area.len() {
        return u32::from_be_bytes([area[i], area[i + 1], area[i + 2], area[i + 3]]);
    }
    let first = at(area, i, 0);
    let second = at(area, i + 1, 0);
    let third = at(area, i + 2, 0);
    let last = at(area, i + 3, 0);
    u32::from_be_bytes([first, second, third, last])
}

// Writes a word of a row. Every other byte of the area stays.
#[inline]
pub fn put_word(area: &mut [u8], row: u16, word: u16, x: u32)
    ensures { area.new ≡ with_word area.old row word x }
{
    let i = place_of(row, word);
    let [first, second, third, last] = x.to_be_bytes();
    put(area, i, first);
    put(area, i + 1, second);
    put(area, i + 2, third);
    put(area, i + 3, last);
}
