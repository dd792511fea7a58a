// Whether the version that is tried fits with those chosen, and the line that says why it does not.
ghost use Rattle.std.specs.Prelude.{◌≡◌, suc};
ghost use Rattle.rules.specs.Sheet.{cites};
ghost use Rattle.moves.specs.Fitting.{fits_in};
ghost use Rattle.moves.specs.Noting.{sheet_of, Leaves, note_in, entry_bytes};
ghost use Rattle.moves.specs.Scan.{number_of, scan_in, over_in};

use crate::noting::Sheet;
use crate::scan;
use crate::wanted::Wanted;
use frames::numbers::{ModuleNo, Place};
use store::limits::MODULES;
use store::tables::Tables;

// The version at a place lies in the range that is left to the wanted module, and none of its own needs leaves out a chosen version.
pub fn fits(t: &Tables, chosen: &[u16; MODULES as usize], w: Wanted, p: Place) -> bool
    ensures { result ≡ fits_in t.now chosen.now w p.0 }
{
    let v = t.version(p);
    let within = v.is_within(w.low, w.high);
    if !within {
        return false;
    }
    let own = t.needs(p);
    let bar = scan::first_bar(t, chosen, true, w.owner, p, own);
    bar.is_none()
}

// The need that bars a trial of module m at a place is cited; where none does, NONE. It is looked for only as long as lines have room.
pub fn cite_bar(
    t: &Tables,
    chosen: &[u16; MODULES as usize],
    modules: u16,
    sheet: &mut Sheet,
    m: ModuleNo,
    p: Place,
)
    ensures { Leaves sheet.old sheet.new (note_in sheet.old.allowance
        (entry_bytes (cites (number_of (over_in (scan_in t.now chosen.now m.0 (suc p.0)) 0 modules)))) (sheet_of sheet.old)) }
{
    if sheet.noted.over {
        return;
    }
    let hit = scan::barring(t, chosen, modules, m, p);
    sheet.cite(hit.unwrap_or(scan::NONE));
}
