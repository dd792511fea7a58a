// The next module to choose, the lowest that a chosen version needs and that is not chosen yet, with the need that asks for it and the range that is
// left to it.
ghost use Rattle.std.specs.Prelude.{◌≡◌};
ghost use Rattle.moves.specs.Wanted.{none_wanted, narrowed, if_any, better_in, fold_in, wanted_at, wanted_in};

use crate::scan::NONE;
use frames::access::at;
use frames::numbers::{ModuleNo, Place, Version};
use store::limits::MODULES;
use store::lookup::Span;
use store::tables::Tables;

// No module yet: the greatest number, which every other is below.
pub const NO_MODULE: ModuleNo = ModuleNo(u16::MAX);

// A module to choose, the number of the first need that asks for it, and the range that the needs of chosen versions leave to it; NO_MODULE and NONE
// where nothing is wanted.
#[derive(Clone, Copy)]
pub struct Wanted {
    pub need: u32,
    pub low: Version,
    pub high: Version,
    pub owner: ModuleNo,
}

impl Wanted {
    // Nothing is wanted yet, and no version left out.
    pub fn nothing() -> Wanted
        ensures { result ≡ none_wanted }
    {
        Wanted {
            need: NONE,
            low: Version::LOWEST,
            high: Version::NO_END,
            owner: NO_MODULE,
        }
    }

    // What is wanted, if a module is.
    pub fn if_any(self) -> Option<Wanted>
        ensures { result ≡ if_any self }
    {
        if self.owner == NO_MODULE {
            return None;
        }
        Some(self)
    }

    // The same module, with what a need's range leaves of the range that it had.
    fn narrow(self, low: Version, high: Version) -> Wanted
        ensures { result ≡ narrowed low.0 high.0 self }
    {
        Wanted {
            need: self.need,
            low: low.max(self.low),
            high: high.min(self.high),
            owner: self.owner,
        }
    }
}

// What is wanted after need k: nothing else where it names a higher module, less of the module's range where it names the module, and the module
// that it names where that is lower and not chosen.
pub fn better(t: &Tables, chosen: &[u16; MODULES as usize], k: u32, w: Wanted) -> Wanted
    ensures { result ≡ better_in t.now chosen.now k w }
{
    let target = ModuleNo(at(&t.targets, k as usize, 0));
    let lowest = w.owner;
    if lowest < target {
        return w;
    }
    let low = Version(at(&t.lows, k as usize, 0));
    let high = Version(at(&t.highs, k as usize, 0));
    if target == lowest {
        return w.narrow(low, high);
    }
    let state = at(chosen, target.0 as usize, 0);
    if state == 0 {
        return Wanted {
            need: k,
            low,
            high,
            owner: target,
        };
    }
    w
}

// What is wanted after the needs of a version.
pub fn wanted_of_version(
    t: &Tables,
    chosen: &[u16; MODULES as usize],
    needs: Span,
    b: Wanted,
) -> Wanted
    ensures { result ≡ fold_in (better_in t.now chosen.now) b needs.first needs.count }
{
    let mut w = b;
    let first = needs.first as u32;
    let end = first + needs.count as u32;
    for k in first..end {
        w = better(t, chosen, k, w);
    }
    w
}

// What is wanted after the needs of the version that module k is chosen at, if it is.
pub fn wanted_of_module(
    t: &Tables,
    chosen: &[u16; MODULES as usize],
    k: ModuleNo,
    b: Wanted,
) -> Wanted
    ensures { result ≡ wanted_at t.now chosen.now k.0 b }
{
    let state = at(chosen, k.0 as usize, 0);
    if state == 0 {
        return b;
    }
    let needs = t.needs(Place(state - 1));
    wanted_of_version(t, chosen, needs, b)
}

// What is wanted after the needs of every module's chosen version.
pub fn next_of(t: &Tables, chosen: &[u16; MODULES as usize], modules: u16) -> Wanted
    ensures { result ≡ wanted_in t.now chosen.now modules }
{
    let mut w = Wanted::nothing();
    for k in 0..modules {
        w = wanted_of_module(t, chosen, ModuleNo(k), w);
    }
    w
}
