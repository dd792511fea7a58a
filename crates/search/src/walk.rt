// The backtracking search: from a place to its trials, and from a trial to the next place.
ghost use Rattle.std.specs.Prelude.{◌≡◌, ◌<◌};
ghost use Rattle.moves.specs.Noting.{sheet_of, Leaves};
ghost use Rattle.search.specs.Walking.{PlacesFit, moves_in, told, try_walk, walk_in};

use crate::choices::Choices;
use frames::numbers::Place;
use moves::fitting;
use moves::noting::Sheet;
use moves::wanted::Wanted;
use store::tables::{Tables, one_less};

// A trial of the wanted module at a place: it fails at once, and the need that bars it is cited, or the search goes on to the next place. From a failure
// the record comes back as it was.
#[cycle(place_trial)]
pub fn trial(
    t: &Tables,
    modules: u16,
    unsettled: u16,
    choices: Choices,
    sheet: &mut Sheet,
    w: Wanted,
    p: Place,
) -> Result<Choices, Choices>
    requires places { PlacesFit t.now }
    requires place { p.0 < 65535 }
    ensures told { result ≡ told (try_walk (moves_in t.now modules) sheet.old.allowance
        (walk_in unsettled (moves_in t.now modules) sheet.old.allowance) w p.0 choices (sheet_of sheet.old)) }
    ensures sheet { Leaves sheet.old sheet.new ((try_walk (moves_in t.now modules) sheet.old.allowance
        (walk_in unsettled (moves_in t.now modules) sheet.old.allowance) w p.0 choices (sheet_of sheet.old)).sheet) }
{
    let m = w.owner;
    let fits = fitting::fits(t, &choices.chosen, w, p);
    if !fits {
        fitting::cite_bar(t, &choices.chosen, modules, sheet, m, p);
        return Err(choices);
    }
    let chosen = choices.choose(m, p);
    match place(t, modules, unsettled, chosen, sheet) {
        Ok(found) => Ok(found),
        Err(after) => Err(after.take_back(w)),
    }
}

// A place: the module that is wanted next, with its versions tried in turn, newest first; where nothing is wanted, a selection is found.
#[cycle(place_trial)]
pub fn place(
    t: &Tables,
    modules: u16,
    unsettled: u16,
    choices: Choices,
    sheet: &mut Sheet,
) -> Result<Choices, Choices>
    requires { PlacesFit t.now }
    ensures told { result ≡ told (walk_in unsettled (moves_in t.now modules) sheet.old.allowance choices (sheet_of sheet.old)) }
    ensures sheet { Leaves sheet.old sheet.new ((walk_in unsettled (moves_in t.now modules) sheet.old.allowance choices (sheet_of sheet.old)).sheet) }
{
    if unsettled == 0 {
        return Ok(choices);
    }
    let mut record = choices.next_module(t, modules);
    let Some(w) = record.next.if_any() else {
        return Ok(record);
    };
    let m = w.owner;
    let versions = t.versions(m);
    let mut came = sheet.noted.lines;
    sheet.cite(w.need);
    for untried in (0..versions.count).rev() {
        let p = Place(versions.first + untried);
        match trial(t, modules, unsettled - 1, record, sheet, w, p) {
            Ok(found) => return Ok(found),
            Err(after) => record = after,
        }
        let line = sheet.noted.lines;
        sheet.resolve(came, one_less(line), m);
        came = line;
    }
    Err(record)
}
