// Which need makes a trial fail at once: the needs of chosen versions and of the version tried, by module, each against the tables.
ghost use Rattle.std.specs.Prelude.{◌≡◌, suc};
ghost use Rattle.moves.specs.Scan.{leaves_out_in, bars_in, first_in, scan_in, over_in};

use frames::access::at;
use frames::numbers::{ModuleNo, Place, Version};
use store::limits::MODULES;
use store::lookup::Span;
use store::tables::Tables;

// What stands for no need where a number has to be told: in a line that is cited, and of what is wanted before any need asks for it.
pub const NONE: u32 = u32::MAX;

// Need k leaves out the version at a place.
pub fn leaves_out(t: &Tables, k: u32, p: Place) -> bool
    ensures { result ≡ leaves_out_in t.now k (suc p.0) }
{
    let v = t.version(p);
    let low = Version(at(&t.lows, k as usize, 0));
    let high = Version(at(&t.highs, k as usize, 0));
    !v.is_within(low, high)
}

// Need k bars the trial of module m at a place: m's own need leaves out what is chosen, or another's need that names m leaves out the version tried.
pub fn bars(
    t: &Tables,
    chosen: &[u16; MODULES as usize],
    own: bool,
    m: ModuleNo,
    p: Place,
    k: u32,
) -> bool
    ensures { result ≡ bars_in t.now chosen.now own m.0 (suc p.0) k }
{
    let target = ModuleNo(at(&t.targets, k as usize, 0));
    if own {
        let met = at(chosen, target.0 as usize, 0);
        if met == 0 {
            return false;
        }
        return leaves_out(t, k, Place(met - 1));
    }
    if target == m {
        return leaves_out(t, k, p);
    }
    false
}

// The first need of a run that bars the trial.
pub fn first_bar(
    t: &Tables,
    chosen: &[u16; MODULES as usize],
    own: bool,
    m: ModuleNo,
    p: Place,
    needs: Span,
) -> Option<u32>
    ensures { result ≡ first_in (bars_in t.now chosen.now own m.0 (suc p.0)) needs.first needs.count }
{
    let first = needs.first as u32;
    let end = first + needs.count as u32;
    for k in first..end {
        let hit = bars(t, chosen, own, m, p, k);
        if hit {
            return Some(k);
        }
    }
    None
}

// The first need of module k that bars the trial of module m at a place.
pub fn scan_module(
    t: &Tables,
    chosen: &[u16; MODULES as usize],
    m: ModuleNo,
    p: Place,
    k: ModuleNo,
) -> Option<u32>
    ensures { result ≡ scan_in t.now chosen.now m.0 (suc p.0) k.0 }
{
    if k == m {
        let own = t.needs(p);
        return first_bar(t, chosen, true, m, p, own);
    }
    let other = at(chosen, k.0 as usize, 0);
    if other == 0 {
        return None;
    }
    let needs = t.needs(Place(other - 1));
    first_bar(t, chosen, false, m, p, needs)
}

// The first need that bars the trial of module m at a place, over all modules in turn.
pub fn barring(
    t: &Tables,
    chosen: &[u16; MODULES as usize],
    modules: u16,
    m: ModuleNo,
    p: Place,
) -> Option<u32>
    ensures { result ≡ over_in (scan_in t.now chosen.now m.0 (suc p.0)) 0 modules }
{
    for k in 0..modules {
        let hit = scan_module(t, chosen, m, p, ModuleNo(k));
        if hit.is_some() {
            return hit;
        }
    }
    None
}
