// A frame of a sheet: its fields, what is wrong with it, and how the reading goes on after it.
ghost use Rattle.std.specs.Prelude.{◌≡◌, ◌<◌};
ghost use Rattle.frames.specs.Faults.{told};
ghost use Rattle.sheets.specs.Frame.{state_told, fields_told, fields_at, head_fault, need_fault, resolved_fault, end_fault, frame_fault, after};

use frames::faults::Refusal;
use frames::fields::{Frame, byte_in, pair_in};
use frames::kinds::Kind;
use frames::numbers::ModuleNo;
use store::frame::{Stands, checks};
use store::tables::one_less;

// Lines of a sheet.
pub const LINES: u16 = 480;

// The fields of a frame of any kind: a line count, a need's number or the first line cited; the second line cited; the module resolved at.
#[derive(Clone, Copy)]
pub struct Fields {
    pub kind: Kind,
    pub first: u16,
    pub second: u16,
    pub owner: ModuleNo,
}

// Where the reading stands, how many lines are due, and how many have been read.
#[derive(Clone, Copy)]
pub struct State {
    pub stands: Stands,
    pub due: u16,
    pub lines: u16,
}

fn head_fault(s: State, f: Fields) -> Result<(), Refusal>
    ensures { told result ≡ head_fault (state_told s) (fields_told f) }
{
    checks(
        s.stands == Stands::BeforeHead,
        (1 <= f.first) & (f.first <= LINES),
        true,
    )
}

// `needs` is how many needs the catalogue has.
fn need_fault(s: State, needs: u16, f: Fields) -> Result<(), Refusal>
    ensures { told result ≡ need_fault (state_told s) needs (fields_told f) }
{
    checks(
        (s.stands == Stands::InBody) & (s.due != 0),
        f.first < needs,
        true,
    )
}

// A cited line is an earlier one.
fn resolved_fault(s: State, modules: u16, f: Fields) -> Result<(), Refusal>
    ensures { told result ≡ resolved_fault (state_told s) modules (fields_told f) }
{
    let cited = (f.first < s.lines) & (f.second < s.lines);
    checks(
        (s.stands == Stands::InBody) & (s.due != 0),
        cited & (f.owner.0 < modules),
        true,
    )
}

fn end_fault(s: State) -> Result<(), Refusal>
    ensures { told result ≡ end_fault (state_told s) }
{
    checks((s.stands == Stands::InBody) & (s.due == 0), true, true)
}

// What is wrong with a frame of a sheet's kind, over a catalogue with so many modules and needs.
#[tactic(auto, unfolding(crate::specs::Frame::frame_fault))]
pub fn frame_fault(s: State, modules: u16, needs: u16, f: Fields) -> Result<(), Refusal>
    ensures { told result ≡ frame_fault (state_told s) modules needs (fields_told f) }
{
    match f.kind {
        Kind::SheetHead => head_fault(s, f),
        Kind::NeedLine => need_fault(s, needs, f),
        Kind::Resolved => resolved_fault(s, modules, f),
        _ => end_fault(s),
    }
}

impl State {
    // Nothing has been read.
    pub const START: State = State {
        stands: Stands::BeforeHead,
        due: 0,
        lines: 0,
    };

    // How the reading goes on after a frame.
    #[tactic(auto, unfolding(crate::specs::Frame::after))]
    pub fn after(self, f: Fields) -> State
        requires { self.lines < 65535 }
        ensures { state_told result ≡ after (state_told self) (fields_told f) }
    {
        match f.kind {
            Kind::SheetHead => State {
                stands: Stands::InBody,
                due: f.first,
                lines: 0,
            },
            Kind::SheetEnd => State {
                stands: Stands::AfterEnd,
                due: 0,
                lines: self.lines,
            },
            _ => State {
                stands: Stands::InBody,
                due: one_less(self.due),
                lines: self.lines + 1,
            },
        }
    }
}

// The fields of a frame, by the row of its kind.
pub fn fields_of(frame: Frame) -> Fields
    ensures { fields_told result ≡ fields_at frame.row.first frame.row.second frame.row.third frame.bytes }
{
    let Frame { bytes, row } = frame;
    let first = pair_in(bytes, row.first);
    let second = pair_in(bytes, row.second);
    let owner = byte_in(bytes, row.third as usize) as u16;
    Fields {
        kind: row.kind,
        first,
        second,
        owner: ModuleNo(owner),
    }
}
