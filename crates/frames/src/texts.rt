// The reading of a text line by line, a frame a line, for every reader of texts: as far as the first faulty line, and then to the text's fault.
ghost use Rattle.std.specs.Prelude.{◌≡◌, ◌<◌, ◌≤◌, length};
ghost use Rattle.rules.specs.Frames.{Reader, byte_at};
ghost use Rattle.frames.specs.Faults.{told, fault_told};
ghost use Rattle.frames.specs.Kinds.{text_number, row_of, row_for};
ghost use Rattle.frames.specs.Texts.{FrameTaken, LineTaken, LinesTaken, TextRead};

use crate::access::put;
use crate::digits::{Pair, pair_at};
use crate::faults::{Fault, Refusal, line_row};
use crate::fields::{Frame, LONGEST};
use crate::kinds::Text;

// A reader of one kind of text: it judges the frames one after the other, and keeps of each good one what it is about.
pub trait LineReader {
    // What the rules know after the frames so far, when a reader stands for that, and the rules' reader.
    ghost Known: { Type 0 };

    ghost stands: { Self → Known → Type 0 };

    ghost reads: { Reader Known };

    // What is lent to a reader, and stays the same.
    ghost Lender: { Type 0 };

    ghost lender: { Self → Lender };

    // Which text it reads.
    fn text() -> Text
        ensures { text_number result ≡ reads.text };

    // Judges a frame, in a line that fits its kind; a good one is kept.
    fn take(&mut self, frame: Frame) -> Result<(), Refusal>
        requires begun { (u : Known) × stands self.old u }
        requires row { row_of frame.row ≡ row_for reads.text (byte_at frame.bytes 0) }
        ensures taken { FrameTaken reads stands self.old self.new frame.bytes (told result) }
        ensures same { lender self.new ≡ lender self.old };

    // Whether the end has been read.
    fn is_ended(&self) -> bool
        ensures { (u : Known) → stands self.now u → result ≡ reads.is_ended u };

    // What is wrong at the end's line when every line is good.
    fn last(&self) -> Result<(), Refusal>
        ensures { (u : Known) → stands self.now u → told result ≡ reads.last u };
}

// A whole line, of which as many bytes are kept as a frame has: its shape, its sum and its kind, and then what the reader finds in its frame.
fn take_line<R: LineReader>(
    reader: &mut R,
    kept: [u8; LONGEST],
    bytes: usize,
    sum: u32,
) -> Result<(), Refusal>
    requires begun { (u : R.Known) × R.stands reader.old u }
    requires size { bytes ≤ 4294967295 }
    ensures taken { LineTaken R.reads R.stands reader.old reader.new kept bytes sum (told result) }
    ensures same { R.lender reader.new ≡ R.lender reader.old }
{
    let row = line_row(R::text(), kept[0], bytes, sum)?;
    reader.take(Frame { bytes: kept, row })
}

// Lines of digits, a frame a line. The digit loop is left at the first character that can't stand, and the reading at the first faulty line; else it
// answers the line past the last.
pub fn read_lines<R: LineReader>(text: &[u8], reader: &mut R) -> Result<u32, Fault>
    requires begun { (u : R.Known) × R.stands reader.old u }
    requires size { length text.now < 4294967295 }
    ensures read { (u : R.Known) → R.stands reader.old u → LinesTaken R.reads R.stands u text.now reader.new result }
    ensures same { R.lender reader.new ≡ R.lender reader.old }
{
    let mut line: u32 = 1;
    let mut at: usize = 0;
    'lines: loop {
        if text.len() <= at {
            break 'lines Ok(line);
        }
        let mut frame = [0u8; LONGEST];
        let mut bytes: usize = 0;
        let mut sum: u32 = 0;
        'digits: loop {
            let pair = pair_at(text, at);
            match pair {
                Pair::Byte(b) => {
                    put(&mut frame, bytes, b);
                    bytes += 1;
                    sum = (sum + b as u32) % 256;
                    at += 2;
                }
                Pair::LineFeed => break 'digits,
                Pair::Wrong => {
                    break 'lines Err(Fault {
                        refusal: Refusal::Shape,
                        line,
                    });
                }
            }
        }
        if let Err(refusal) = take_line(reader, frame, bytes, sum) {
            break 'lines Err(Fault { refusal, line });
        }
        at += 1;
        line += 1;
    }
}

// A whole text, of no more than so many bytes: its fault, with what only its reader can tell of it behind the last line. A text that is too long is not read.
pub fn read_text<R: LineReader>(text: &[u8], most: usize, reader: &mut R) -> Result<(), Fault>
    requires begun { (u : R.Known) × R.stands reader.old u }
    requires size { most < 4294967295 }
    ensures read { (u : R.Known) → R.stands reader.old u → TextRead R.reads R.stands most u text.now reader.new (fault_told result) }
    ensures same { R.lender reader.new ≡ R.lender reader.old }
{
    if most < text.len() {
        return Err(Fault {
            refusal: Refusal::Length,
            line: 0,
        });
    }
    let line = read_lines(text, reader)?;
    if !reader.is_ended() {
        return Err(Fault {
            refusal: Refusal::Order,
            line,
        });
    }
    if let Err(refusal) = reader.last() {
        return Err(Fault {
            refusal,
            line: line - 1,
        });
    }
    Ok(())
}
