// What a program writes: the selection's text, the sheet's, or one frame that tells a number and a line.
ghost use Rattle.std.specs.Prelude.{◌≡◌, take};
ghost use Rattle.picker_io.specs.Answer.{told_text, answer_text};

use frames::kinds::Kind;
use frames::written;
use picker::Outcome;

// The bytes of the line that tells a number and a line.
pub const TOLD_BYTES: usize = 11;

// The line that tells a number and a line.
pub fn told(number: u8, line: u32) -> [u8; TOLD_BYTES]
    ensures { result ≡ told_text number line }
{
    let mut out = [0; TOLD_BYTES];
    let [_, _, high, low] = line.to_be_bytes();
    written::write_frame(&mut out, 0, &[Kind::Answer as u8, number, high, low]);
    out
}

// The first bytes of a text, or all of it where it has no more.
fn start_of(text: &[u8], size: u32) -> &[u8]
    ensures { result.now ≡ take size text.now }
{
    text.get(..size as usize).unwrap_or(text)
}

// The answer's text, out of the areas that a pick has filled.
pub fn text_of<'a>(
    number: u8,
    size: u32,
    selection: &'a [u8],
    sheet: &'a [u8],
    told: &'a [u8],
) -> &'a [u8]
    ensures { result.now ≡ answer_text number size selection.now sheet.now told.now }
{
    if number == Outcome::Selected as u8 {
        return start_of(selection, size);
    }
    if number == Outcome::Refuted as u8 {
        return start_of(sheet, size);
    }
    told
}
