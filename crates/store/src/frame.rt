// A frame of a catalogue: its fields, what is wrong with it, and how the reading goes on after it.
ghost use Rattle.std.specs.Prelude.{◌≡◌, ◌<◌};
ghost use Rattle.rules.specs.Catalogue.{limits};
ghost use Rattle.frames.specs.Faults.{told};
ghost use Rattle.store.specs.Frame.{state_told, fields_told, fields_at, checks, head_fault, version_fault, need_fault, end_fault, frame_fault, after};

use crate::limits::{MODULES, NEEDS, OF_MODULE, OF_VERSION};
use frames::faults::{Refusal, ensure};
use frames::fields::{Frame, byte_in, version_in};
use frames::kinds::Kind;
use frames::numbers::{ModuleNo, Place, Version};

// The fields of a frame of any kind: a module (of a head, how many), a version or the low end of a range with whether it has a byte 255, and the
// upper end.
#[derive(Clone, Copy)]
pub struct Fields {
    pub kind: Kind,
    pub owner: ModuleNo,
    pub low: Version,
    pub topped: bool,
    pub high: Version,
}

// Where the reading stands.
#[derive(Clone, Copy, PartialEq, Eq)]
pub enum Stands {
    BeforeHead,
    InBody,
    AfterEnd,
}

// Where the reading stands, and how much has been read.
#[derive(Clone, Copy)]
pub struct State {
    pub stands: Stands,
    pub modules: u16,
    pub versions: u16,
    pub needs: u16,
}

// The version last read, with how many needs it has so far.
#[derive(Clone, Copy)]
pub struct Last {
    pub place: Place,
    pub owner: ModuleNo,
    pub value: Version,
    pub needs: u16,
}

// 5, 6 or 7: the first of three tests that fails.
#[inline]
#[tactic(auto, unfolding(crate::specs::Frame::checks))]
pub fn checks(order: bool, content: bool, room: bool) -> Result<(), Refusal>
    ensures { told result ≡ checks order content room }
{
    ensure(order, Refusal::Order)?;
    ensure(content, Refusal::Content)?;
    ensure(room, Refusal::Room)
}

fn head_fault(s: State, f: Fields) -> Result<(), Refusal>
    ensures { told result ≡ head_fault (state_told s) (fields_told f) }
{
    let m = f.owner.0;
    checks(
        s.stands == Stands::BeforeHead,
        (1 <= m) & (m <= MODULES),
        true,
    )
}

// `count` versions of the module have been read.
fn version_fault(s: State, last: Last, count: u16, f: Fields) -> Result<(), Refusal>
    ensures { told result ≡ version_fault limits (state_told s) last count (fields_told f) }
{
    let newer = (last.owner == f.owner) & (last.value < f.low);
    let rises = (s.versions == 0) | (last.owner < f.owner) | newer;
    checks(
        (s.stands == Stands::InBody) & rises,
        (f.owner.0 < s.modules) & !f.topped,
        count < OF_MODULE,
    )
}

fn need_fault(s: State, last: Last, f: Fields) -> Result<(), Refusal>
    ensures { told result ≡ need_fault limits (state_told s) last (fields_told f) }
{
    let rises = (f.low < f.high) & (f.high.0 <= Version::NO_END.0);
    let room = (last.needs < OF_VERSION) & (s.needs < NEEDS);
    checks(
        (s.stands == Stands::InBody) & (s.versions != 0),
        (f.owner.0 < s.modules) & (f.owner != last.owner) & rises,
        room,
    )
}

fn end_fault(s: State) -> Result<(), Refusal>
    ensures { told result ≡ end_fault (state_told s) }
{
    checks(s.stands == Stands::InBody, true, true)
}

// What is wrong with a frame of a catalogue's kind.
#[tactic(auto, unfolding(crate::specs::Frame::frame_fault))]
pub fn frame_fault(s: State, last: Last, count: u16, f: Fields) -> Result<(), Refusal>
    ensures { told result ≡ frame_fault limits (state_told s) last count (fields_told f) }
{
    match f.kind {
        Kind::Head => head_fault(s, f),
        Kind::Version => version_fault(s, last, count, f),
        Kind::Need | Kind::Caret => need_fault(s, last, f),
        _ => end_fault(s),
    }
}

impl State {
    // Nothing has been read.
    pub const START: State = State {
        stands: Stands::BeforeHead,
        modules: 0,
        versions: 0,
        needs: 0,
    };

    // How the reading goes on after a frame.
    #[tactic(auto, unfolding(crate::specs::Frame::after))]
    pub fn after(self, f: Fields) -> State
        requires { (self.versions < 65535) × (self.needs < 65535) }
        ensures { state_told result ≡ after (state_told self) (fields_told f) }
    {
        match f.kind {
            Kind::Head => State {
                stands: Stands::InBody,
                modules: f.owner.0,
                versions: 0,
                needs: 0,
            },
            Kind::Version => State {
                stands: Stands::InBody,
                modules: self.modules,
                versions: self.versions + 1,
                needs: self.needs,
            },
            Kind::Need | Kind::Caret => State {
                stands: Stands::InBody,
                modules: self.modules,
                versions: self.versions,
                needs: self.needs + 1,
            },
            _ => State {
                stands: Stands::AfterEnd,
                modules: self.modules,
                versions: self.versions,
                needs: self.needs,
            },
        }
    }
}

// The fields of a frame, by the row of its kind.
pub fn fields_of(frame: Frame) -> Fields
    ensures { fields_told result ≡ fields_at frame.row.first frame.row.second frame.row.third frame.bytes }
{
    let Frame { bytes, row } = frame;
    let i = row.first as usize;
    let j = row.second as usize;
    let owner = byte_in(bytes, i) as u16;
    let major = byte_in(bytes, j);
    let minor = byte_in(bytes, j + 1);
    let patch = byte_in(bytes, j + 2);
    let topped = (major == 255) | (minor == 255) | (patch == 255);
    let low = version_in(bytes, row.second);
    let high = match row.kind {
        // A caret's range ends at the next major version.
        Kind::Caret => Version((major as u32 + 1) * 65536),
        _ => version_in(bytes, row.third),
    };
    Fields {
        kind: row.kind,
        owner: ModuleNo(owner),
        low,
        topped,
        high,
    }
}
