// The one table of the kinds of frames, for every text and reader.
ghost use Rattle.std.specs.Prelude.{◌≡◌, ◌&&◌, eqb};
ghost use Rattle.frames.specs.Kinds.{row_for, row_found, row_of, text_number, kind_number};

// The texts, each with the number that tells which was at fault.
#[derive(Clone, Copy, PartialEq, Eq)]
pub enum Text {
    Catalogue = 1,
    Sheet = 2,
}

// The kinds of frames, of a catalogue, a selection, an answer and a sheet, each with the byte that a frame begins with.
#[derive(Clone, Copy, PartialEq, Eq)]
pub enum Kind {
    Head = 0x01,
    Version = 0x02,
    Need = 0x03,
    End = 0x04,
    Caret = 0x05,
    SelectionHead = 0x11,
    Selected = 0x12,
    SelectionEnd = 0x14,
    Answer = 0x1F,
    SheetHead = 0x20,
    NeedLine = 0x21,
    Resolved = 0x22,
    SheetEnd = 0x24,
}

// A row of the table: a text and a kind that it has, the digits of the kind's line, and where in the frame its first, second and third field stand (0: it
// has none).
#[derive(Clone, Copy)]
pub struct Row {
    pub text: Text,
    pub kind: Kind,
    pub digits: u8,
    pub first: u8,
    pub second: u8,
    pub third: u8,
}

impl From<Kind> for u8 {
    fn from(kind: Kind) -> u8
        ensures { result ≡ kind_number kind }
    {
        kind as u8
    }
}

impl Row {
    // The row of this kind of this text, by the kind's byte.
    fn is_of(self, text: Text, kind: u8) -> bool
        ensures { result ≡ (eqb (row_of self).text (text_number text) && eqb (row_of self).kind kind) }
    {
        (self.text == text) & (u8::from(self.kind) == kind)
    }
}

const ROWS: usize = 9;

const KINDS: [Row; ROWS] = [
    // head: M
    Row {
        text: Text::Catalogue,
        kind: Kind::Head,
        digits: 6,
        first: 1,
        second: 0,
        third: 0,
    },
    // version: module, version
    Row {
        text: Text::Catalogue,
        kind: Kind::Version,
        digits: 12,
        first: 1,
        second: 2,
        third: 0,
    },
    // need: module, low, upper end
    Row {
        text: Text::Catalogue,
        kind: Kind::Need,
        digits: 18,
        first: 1,
        second: 2,
        third: 5,
    },
    // caret need: module, low
    Row {
        text: Text::Catalogue,
        kind: Kind::Caret,
        digits: 12,
        first: 1,
        second: 2,
        third: 0,
    },
    // end
    Row {
        text: Text::Catalogue,
        kind: Kind::End,
        digits: 4,
        first: 0,
        second: 0,
        third: 0,
    },
    // head: line count
    Row {
        text: Text::Sheet,
        kind: Kind::SheetHead,
        digits: 8,
        first: 1,
        second: 0,
        third: 0,
    },
    // need line: need number
    Row {
        text: Text::Sheet,
        kind: Kind::NeedLine,
        digits: 8,
        first: 1,
        second: 0,
        third: 0,
    },
    // resolved line: first line, second line, module
    Row {
        text: Text::Sheet,
        kind: Kind::Resolved,
        digits: 14,
        first: 1,
        second: 3,
        third: 5,
    },
    // end
    Row {
        text: Text::Sheet,
        kind: Kind::SheetEnd,
        digits: 4,
        first: 0,
        second: 0,
        third: 0,
    },
];

// The row of a kind of a text, by the kind's byte, if the text has the kind.
pub fn look_up(text: Text, kind: u8) -> Option<Row>
    ensures { row_found (text_number text) kind result ≡ row_for (text_number text) kind }
{
    for row in KINDS {
        if row.is_of(text, kind) {
            return Some(row);
        }
    }
    None
}
