// What the tables tell, as they stand; by Holds, what is true of the catalogue that they hold, whichever it is.
ghost use Rattle.std.specs.Prelude.{◌≡◌, get_or};
ghost use Rattle.store.specs.Frame.{version};
ghost use Rattle.store.specs.Tables.{places_in, needs_in, need_in};

use crate::tables::{Tables, UNUSED, one_less};
use frames::access::at;
use frames::numbers::{ModuleNo, Place, Version};

// Numbers side by side: the first, and how many.
#[derive(Clone, Copy)]
pub struct Span {
    pub first: u16,
    pub count: u16,
}

// A need: the module that it names, and the range.
#[derive(Clone, Copy)]
pub struct Need {
    pub target: ModuleNo,
    pub low: Version,
    pub high: Version,
}

// The version at a place.
#[inline]
pub fn version_at(values: &[u32], p: Place) -> Version
    ensures { result ≡ version (get_or values.now p.0 0) }
{
    Version(at(values, p.0 as usize, 0))
}

// The places of a module's versions, oldest first.
#[inline]
pub fn versions_of(firsts: &[u16], counts: &[u16], m: ModuleNo) -> Span
    ensures { result ≡ places_in firsts.now counts.now m.0 }
{
    let i = m.0 as usize;
    Span {
        first: at(firsts, i, 0),
        count: at(counts, i, 0),
    }
}

// The numbers of a version's needs.
#[inline]
pub fn needs_of(starts: &[u16], marks: &[u16], p: Place) -> Span
    ensures { result ≡ needs_in starts.now marks.now p.0 }
{
    let i = p.0 as usize;
    Span {
        first: at(starts, i, 0),
        count: one_less(at(marks, i, UNUSED)),
    }
}

// A need by its number.
#[inline]
pub fn need_at(targets: &[u16], lows: &[u32], highs: &[u32], k: u16) -> Need
    ensures { result ≡ need_in targets.now lows.now highs.now k }
{
    let i = k as usize;
    Need {
        target: ModuleNo(at(targets, i, 0)),
        low: Version(at(lows, i, 0)),
        high: Version(at(highs, i, 0)),
    }
}

impl Tables {
    // The version at a place.
    #[inline]
    pub fn version(&self, p: Place) -> Version
        ensures { result ≡ version (get_or self.now.values p.0 0) }
    {
        version_at(&self.values, p)
    }

    // The places of a module's versions, oldest first.
    #[inline]
    pub fn versions(&self, m: ModuleNo) -> Span
        ensures { result ≡ places_in self.now.firsts self.now.counts m.0 }
    {
        versions_of(&self.firsts, &self.counts, m)
    }

    // The numbers of a version's needs.
    #[inline]
    pub fn needs(&self, p: Place) -> Span
        ensures { result ≡ needs_in self.now.starts self.now.marks p.0 }
    {
        needs_of(&self.starts, &self.marks, p)
    }
}
