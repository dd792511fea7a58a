// The row of a need line: the needing module's set is that one version, the needed module's absent and every version outside the range, all others full.
ghost use Rattle.std.specs.Prelude.{◌≡◌};
ghost use Rattle.store.specs.Lent.{lent_of};
ghost use Rattle.rows.specs.Area.{with_row, absent_word};
ghost use Rattle.rows.specs.Needed.{cited_in, named_bit, need_versions, need_word, need_row};

use crate::{area, bits};
use frames::access::at;
use frames::numbers::{ModuleNo, Place, Version};
use store::lent::Lent;
use store::lookup;

// A need as a need line cites it: the module and the place of the version that has it, the module that it names, and the range.
#[derive(Clone, Copy)]
pub struct Cited {
    pub needy: ModuleNo,
    pub place: Place,
    pub target: ModuleNo,
    pub low: Version,
    pub high: Version,
}

// A need by its number.
fn cited_at(lent: &Lent, k: u16) -> Cited
    ensures { result ≡ cited_in (lent_of lent.now) k }
{
    let place = at(lent.needies, k as usize, 0);
    let needy = at(lent.owners, place as usize, 0);
    let need = lookup::need_at(lent.targets, lent.lows, lent.highs, k);
    Cited {
        needy: ModuleNo(needy),
        place: Place(place),
        target: need.target,
        low: need.low,
        high: need.high,
    }
}

// The version at a place is in the set of a module that the need names.
fn named_bit(lent: &Lent, need: Cited, m: ModuleNo, place: u32) -> bool
    ensures { result ≡ named_bit (lent_of lent.now) need m.0 place }
{
    if m == need.needy {
        return place == u32::from(need.place.0);
    }
    let v = Version(at(lent.values, place as usize, 0));
    !v.is_within(need.low, need.high)
}

// A module's word: its versions that are in its set. Those of a module that the need does not name all are.
fn need_versions(lent: &Lent, need: Cited, m: ModuleNo) -> u32
    ensures { result ≡ need_versions (lent_of lent.now) need m.0 }
{
    let places = lookup::versions_of(lent.firsts, lent.counts, m);
    if !((m == need.needy) | (m == need.target)) {
        return bits::all_bits(places.count);
    }
    let mut word: u32 = 0;
    let count = bits::in_word(places.count);
    for k in (0..count).rev() {
        let bit = named_bit(lent, need, m, places.first as u32 + k as u32);
        word = word * 2 + bits::digit_of(bit);
    }
    word
}

// A word of the row: the word of absent, which is word `absent`, has every module but the needing one.
fn need_word(lent: &Lent, absent: u16, need: Cited, word: u16) -> u32
    ensures { result ≡ need_word (lent_of lent.now) absent need word }
{
    if word == absent {
        return bits::all_but(absent, need.needy.0);
    }
    need_versions(lent, need, ModuleNo(word))
}

// Writes the row of a need.
fn write_need(work: &mut [u8], row: u16, lent: &Lent, need: Cited)
    ensures { work.new ≡ with_row work.old row lent.now.modules
        (need_word (lent_of lent.now) (absent_word lent.now.modules) need) }
{
    let absent = area::absent_word(lent.modules);
    for j in 0..absent + 1 {
        let x = need_word(lent, absent, need, j);
        area::put_word(work, row, j, x);
    }
}

// Writes the row of need line k. Every byte of the area outside the row stays.
pub fn need_row(work: &mut [u8], row: u16, lent: &Lent, k: u16)
    ensures { work.new ≡ need_row work.old row (lent_of lent.now) k }
{
    write_need(work, row, lent, cited_at(lent, k));
}
