// The two calls: pick answers a catalogue's text with its best selection, or with a sheet that no selection is valid; check judges such a sheet.
#![tactic(auto)]

ghost use Rattle.std.specs.Prelude.{◌≡◌, ◌≤◌, length};
ghost use Rattle.rules.specs.Lines.{fault};
ghost use Rattle.frames.specs.Faults.{number_of, fault_told};
ghost use Rattle.frames.specs.Kinds.{text_number};
ghost use Rattle.picker.specs.Entry.{work_least, picked, ReadOwes, PickOwes};
ghost use Rattle.picker.specs.Checking.{checked_by, check_on, check_of, work_after};
ghost use Rattle.picker.specs.Inside.{outcome_number, HasRoom};

use catalogue::reading;
use catalogue::reading::Catalogue;
use frames::faults::Fault;
pub use frames::kinds::Text;
use moves::noting::Sheet;
use search::find;
use selection::text::write_selection;
use sheets::frame::LINES;
use sheets::reading::read_sheet;

pub mod area;
pub mod sheet;

// The least bytes of the lent areas.
pub const SELECTION_LEAST: usize = 428;

pub const SHEET_LEAST: usize = 7214;

pub const WORK_LEAST: usize = 65536;
// The most lines of a sheet.
pub const MOST_LINES: u16 = LINES;

// The answer, in numbers as C gets it: a number of the rules' table (0: a selection is written), the line told, and the length of the text that is written.
#[derive(Clone, Copy)]
pub struct Picked {
    pub number: u8,
    pub line: u32,
    pub size: u32,
}

// The checker's answer, in numbers too: a number of the rules' table (0: the sheet is accepted), the line told, and the text at fault:
// 0 neither, 1 the catalogue, 2 the sheet.
#[derive(Clone, Copy)]
pub struct Checked {
    pub number: u8,
    pub line: u32,
    pub text: u8,
}

// How a call ends that doesn't tell a text's fault, each with its number in the rules' table.
#[derive(Clone, Copy, PartialEq, Eq)]
pub enum Outcome {
    Selected = 0,
    Refuted = 9,
    NoSheet = 10,
    Unfit = 11,
}

fn answer(outcome: Outcome, size: u32) -> Picked
    ensures { result ≡ picked (fault (outcome_number outcome) 0) size }
{
    Picked {
        number: outcome as u8,
        line: 0,
        size,
    }
}

// A text's refusal.
fn refused(f: Fault) -> Picked
    ensures { result ≡ picked (fault (number_of f.refusal) f.line) 0 }
{
    Picked {
        number: u8::from(f.refusal),
        line: f.line,
        size: 0,
    }
}

// A pick once the areas fit: the text is read, and its catalogue searched. What the search leaves in the work area stays there.
fn pick_in(
    text: &[u8],
    selection: &mut [u8],
    sheet: &mut [u8],
    work: &mut [u8],
    allowance: u16,
) -> Picked
    requires { HasRoom selection.old sheet.old work.old allowance }
    ensures { ReadOwes text.now selection.old sheet.old allowance result
        selection.new sheet.new }
{
    let mut catalogue = Catalogue::none();
    if let Err(told) = reading::read(text, &mut catalogue) {
        return refused(told);
    }
    let t = &catalogue.tables;
    let modules = catalogue.state.modules;
    let mut lines = Sheet::new(work, allowance);
    if let Ok(choices) = find::find(t, modules, &mut lines) {
        let size = write_selection(selection, &t.values, &choices.chosen, modules);
        return answer(Outcome::Selected, size as u32);
    }
    let noted = lines.noted;
    let over = noted.over;
    if over {
        return answer(Outcome::NoSheet, 0);
    }
    let size = sheet::write_sheet(sheet, lines.area, noted.lines, noted.end);
    answer(Outcome::Refuted, size as u32)
}

// Picks for a catalogue's text: writes the best selection's text, or a sheet where no selection is valid. The work area is all zero afterwards.
pub fn pick(
    text: &[u8],
    selection: &mut [u8],
    sheet: &mut [u8],
    work: &mut [u8],
    allowance: u16,
) -> Picked
    ensures { PickOwes text.now selection.old sheet.old work.old allowance result
        selection.new sheet.new work.new }
{
    let fit = (SELECTION_LEAST <= selection.len())
        & (SHEET_LEAST <= sheet.len())
        & (WORK_LEAST <= work.len())
        & (allowance <= MOST_LINES);
    if !fit {
        return answer(Outcome::Unfit, 0);
    }
    let told = pick_in(text, selection, sheet, work, allowance);
    area::clear(work);
    told
}

// A text's refusal, or that it has none: then no text is at fault.
fn verdict(told: Result<(), Fault>, text: Text) -> Checked
    ensures { result ≡ checked_by (text_number text) (fault_told told) }
{
    match told {
        Ok(()) => Checked {
            number: 0,
            line: 0,
            text: 0,
        },
        Err(f) => Checked {
            number: u8::from(f.refusal),
            line: f.line,
            text: text as u8,
        },
    }
}

// A check once the work area fits: the catalogue is read whole, then the sheet is read and judged. The rows of its lines stay in the work area.
fn check_in(text: &[u8], sheet: &[u8], work: &mut [u8]) -> Checked
    requires { work_least ≤ length work.old }
    ensures { result ≡ check_on text.now sheet.now }
{
    let mut catalogue = Catalogue::none();
    if let Err(told) = reading::read(text, &mut catalogue) {
        return verdict(Err(told), Text::Catalogue);
    }
    let s = catalogue.state;
    let lent = catalogue.tables.lend(s.modules, s.needs);
    verdict(read_sheet(sheet, &lent, work), Text::Sheet)
}

// Checks a sheet over a catalogue: 0 exactly for the text of a sheet that refutes it. The work area is all zero afterwards.
pub fn check(text: &[u8], sheet: &[u8], work: &mut [u8]) -> Checked
    ensures told { result ≡ check_of text.now sheet.now work.old }
    ensures work { work.new ≡ work_after work.old }
{
    if work.len() < WORK_LEAST {
        return Checked {
            number: Outcome::Unfit as u8,
            line: 0,
            text: 0,
        };
    }
    let told = check_in(text, sheet, work);
    area::clear(work);
    told
}
