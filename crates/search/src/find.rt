// A whole search over the tables of a catalogue, from the root on.
ghost use Rattle.std.specs.Prelude.{◌≡◌, ◌<◌, get_or};
ghost use Rattle.moves.specs.Noting.{sheet_of, Leaves};
ghost use Rattle.search.specs.Walking.{PlacesFit, moves_in, told, search_in};

use crate::choices::Choices;
use crate::walk;
use frames::numbers::{ModuleNo, Place};
use moves::noting::Sheet;
use store::tables::Tables;

// The module that every selection has.
const ROOT: ModuleNo = ModuleNo(0);

// A selection, or the lines of a sheet behind those that it has, as far as its allowance and its area go.
pub fn find(t: &Tables, modules: u16, sheet: &mut Sheet) -> Result<Choices, Choices>
    requires places { PlacesFit t.now }
    requires root { get_or t.now.firsts 0 0 < 65535 }
    ensures told { result ≡ told (search_in (moves_in t.now modules) modules sheet.old.allowance (get_or t.now.firsts 0 0) (sheet_of sheet.old)) }
    ensures sheet { Leaves sheet.old sheet.new ((search_in (moves_in t.now modules) modules sheet.old.allowance (get_or t.now.firsts 0 0) (sheet_of sheet.old)).sheet) }
{
    let versions = t.versions(ROOT);
    let root = Choices::none().choose(ROOT, Place(versions.first));
    walk::place(t, modules, modules, root, sheet)
}
