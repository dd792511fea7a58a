// The row of a resolved line: the union at one module, the intersection everywhere else; and the test that a row refutes.
ghost use Rattle.std.specs.Prelude.{◌≡◌};
ghost use Rattle.store.specs.Lent.{lent_of};
ghost use Rattle.rows.specs.Derived.{resolved_word, resolved_row, is_full_in, refutes_in};

use crate::{area, bits};
use frames::access::at;
use frames::numbers::ModuleNo;
use store::lent::Lent;

// Word j of a line resolved at module m, from that word of both lines. The word of absent is word `absent`.
fn resolved_word(absent: u16, m: ModuleNo, x: u32, y: u32, j: u16) -> u32
    ensures { result ≡ resolved_word absent m.0 x y j }
{
    if j == absent {
        return (x & y) | ((x | y) & bits::one_bit(m.0));
    }
    if j == m.0 {
        return x | y;
    }
    x & y
}

// Writes the row of the line that is resolved from rows a and b at module m. Every byte of the area outside the row stays.
pub fn resolved_row(work: &mut [u8], row: u16, modules: u16, a: u16, b: u16, m: ModuleNo)
    ensures { work.new ≡ resolved_row work.old row modules a b m.0 }
{
    let absent = area::absent_word(modules);
    for j in 0..absent + 1 {
        let x = area::word_at(work, a, j);
        let y = area::word_at(work, b, j);
        area::put_word(work, row, j, resolved_word(absent, m, x, y, j));
    }
}

// A module's set has absent and every version. The word of absent is word `absent`.
fn is_full(work: &[u8], row: u16, absent: u16, lent: &Lent, m: ModuleNo) -> bool
    ensures { result ≡ is_full_in work.now row absent (lent_of lent.now) m.0 }
{
    let has_absent = bits::has_bit(area::word_at(work, row, absent), m.0);
    let all = bits::all_bits(at(lent.counts, m.0 as usize, 0));
    has_absent & (area::word_at(work, row, m.0) == all)
}

// The root's set has the root's version, its only one, and every other module's set is full.
pub fn refutes(work: &[u8], row: u16, lent: &Lent) -> bool
    ensures { result ≡ refutes_in work.now row (lent_of lent.now) }
{
    let root = bits::has_bit(area::word_at(work, row, 0), 0);
    let absent = area::absent_word(lent.modules);
    for m in 0..lent.modules {
        let full = is_full(work, row, absent, lent, ModuleNo(m));
        if !((m == 0) | full) {
            return false;
        }
    }
    root
}
