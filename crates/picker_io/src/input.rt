// A text read to its end, also when it comes in pieces.
ghost use Rattle.std.specs.Prelude.{◌≡◌, length, MatchResult};
ghost use Rattle.picker_io.specs.Input.{IsPrefixLen};

use std::io;
use std::io::Read;
use store::limits::BYTES;

// Why a read failed, and how many bytes had come until then.
#[derive(Drop)]
pub struct Failed {
    pub size: usize,
    pub error: io::Error,
}

// Room for the longest text and one byte more: a text that fills it is too long, and no more of it is read.
pub fn room() -> [u8; BYTES + 1]
    ensures { 32769 ≡ length result }
{
    [0; BYTES + 1]
}

// Reads until the text ends, a read fails or the room is full; says how many bytes came.
pub fn read_all<R: Read>(from: &mut R, text: &mut [u8]) -> Result<usize, Failed>
    ensures { MatchResult result (λ size. IsPrefixLen size text.new) (λ failed. IsPrefixLen failed.size text.new) }
{
    let mut size = 0;
    while size < text.len() {
        match from.read(&mut text[size..]) {
            Ok(0) => break,
            Ok(more) => size += more,
            Err(error) => return Err(Failed { size, error }),
        }
    }
    Ok(size)
}
