// A sheet's text read line by line, as far as the first faulty line, and judged by the row of its last line.
ghost use Rattle.std.specs.Prelude.{◌≡◌, ℕ};
ghost use Rattle.frames.specs.Faults.{fault_told};
ghost use Rattle.frames.specs.Kinds.{text_number};
ghost use Rattle.store.specs.Lent.{lent_of};
ghost use Rattle.sheets.specs.Frame.{state_told, fields_told};
ghost use Rattle.sheets.specs.Reading.{Held, StandsFor, reader, kept_line, SheetJudged};

use crate::frame::{Fields, State, fields_of, frame_fault};
use frames::faults::{Fault, Refusal, ensure};
use frames::fields::Frame;
use frames::kinds::{Kind, Text};
use frames::texts::{LineReader, read_text};
use rows::derived::{refutes, resolved_row};
use rows::needed::need_row;
use store::frame::Stands;
use store::lent::Lent;
use store::limits::BYTES;
use store::tables::one_less;

// What is known of a sheet after the frames so far: where the reading stands, and in the work area a row for each line; over what is lent of a catalogue.
#[derive(Drop)]
pub struct SheetReader<'a> {
    pub lent: Lent<'a>,
    pub work: &'a mut [u8],
    pub state: State,
}

// Writes the row of a good line that has one, over what is lent. Every byte of the area outside the row stays.
#[tactic(auto, unfolding(crate::specs::Reading::kept_line))]
fn keep_line(work: &mut [u8], lent: &Lent, s: State, f: Fields)
    ensures { work.new ≡ kept_line (lent_of lent.now) work.old (state_told s) (fields_told f) }
{
    match f.kind {
        Kind::NeedLine => need_row(work, s.lines, lent, f.first),
        Kind::Resolved => resolved_row(work, s.lines, lent.modules, f.first, f.second, f.owner),
        _ => {}
    }
}

impl<'a> LineReader for SheetReader<'a> {
    ghost Known = { Held };

    ghost stands = { StandsFor };

    ghost reads = { reader };

    ghost Lender = { ℕ };

    ghost lender = { λ s. s.work.ghost_name };

    fn text() -> Text
        ensures { text_number result ≡ reader.text }
    {
        Text::Sheet
    }

    fn take(&mut self, frame: Frame) -> Result<(), Refusal> {
        let f = fields_of(frame);
        frame_fault(self.state, self.lent.modules, self.lent.needs, f)?;
        keep_line(self.work, &self.lent, self.state, f);
        self.state = self.state.after(f);
        Ok(())
    }

    fn is_ended(&self) -> bool {
        self.state.stands == Stands::AfterEnd
    }

    // The last line refutes.
    fn last(&self) -> Result<(), Refusal> {
        let refuted = refutes(self.work, one_less(self.state.lines), &self.lent);
        ensure(refuted, Refusal::Unrefuting)
    }
}

// A sheet's text judged over what is lent of a catalogue: its fault. The rows of its lines stay in the work area.
pub fn read_sheet(text: &[u8], lent: &Lent, work: &mut [u8]) -> Result<(), Fault>
    ensures { SheetJudged (lent_of lent.now) lent.now.needs text.now work.old work.new (fault_told result) }
{
    let mut reader = SheetReader {
        lent: *lent,
        work,
        state: State::START,
    };
    read_text(text, BYTES, &mut reader)
}
