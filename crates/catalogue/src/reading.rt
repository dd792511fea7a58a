// A catalogue's text read into tables, a frame a line, as far as the first faulty line.
ghost use Rattle.std.specs.Prelude.{◌≡◌, eqb, get_or};
ghost use Rattle.rules.specs.Lines.{unless};
ghost use Rattle.rules.specs.Catalogue.{Reading};
ghost use Rattle.frames.specs.Faults.{told, fault_told};
ghost use Rattle.store.specs.Frame.{state_told};
ghost use Rattle.catalogue.specs.Reading.{StandsFor, nothing_read, reader, CatalogueRead};

use frames::access::at;
use frames::faults::{Fault, Refusal, ensure};
use frames::fields::Frame;
use frames::kinds::Text;
use frames::texts::{LineReader, read_text};
use store::frame::{Stands, State, fields_of, frame_fault};
use store::limits::BYTES;
use store::tables::Tables;

// What is known of a catalogue after the frames so far: where the reading stands, and the tables.
#[derive(Drop)]
pub struct Catalogue {
    pub state: State,
    pub tables: Tables,
}

impl Catalogue {
    // Nothing has been read.
    pub fn none() -> Catalogue
        ensures { result ≡ nothing_read }
    {
        Catalogue {
            state: State::START,
            tables: Tables::none(),
        }
    }
}

impl LineReader for Catalogue {
    ghost Known = { Reading };

    ghost stands = { StandsFor };

    ghost reads = { reader };

    ghost Lender = { Unit {0} };

    ghost lender = { λ c. tt };

    fn text() -> Text {
        Text::Catalogue
    }

    fn take(&mut self, frame: Frame) -> Result<(), Refusal> {
        let f = fields_of(frame);
        let last = self.tables.last(self.state.versions);
        let count = at(&self.tables.counts, f.owner.0 as usize, 0);
        frame_fault(self.state, last, count, f)?;
        self.tables.keep(self.state, last, count, f);
        self.state = self.state.after(f);
        Ok(())
    }

    fn is_ended(&self) -> bool
        ensures { result ≡ eqb (state_told self.now.state).stands 2 }
    {
        self.state.stands == Stands::AfterEnd
    }

    // The root has exactly one version.
    fn last(&self) -> Result<(), Refusal>
        ensures { told result ≡ unless (eqb (get_or self.now.tables.counts 0 0) 1) 8 }
    {
        ensure(at(&self.tables.counts, 0, 0) == 1, Refusal::Root)
    }
}

// Reads a catalogue's text, and tells its fault. The catalogue then holds what was read before that, whatever it held; nothing of a text that is too long.
pub fn read(text: &[u8], into: &mut Catalogue) -> Result<(), Fault>
    ensures { CatalogueRead text.now into.new (fault_told result) }
{
    *into = Catalogue::none();
    read_text(text, BYTES, into)
}
