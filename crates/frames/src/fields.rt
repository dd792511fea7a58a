// The bytes of a frame while its line is read, and the fields in them.
ghost use Rattle.std.specs.Prelude.{◌≡◌};
ghost use Rattle.rules.specs.Frames.{byte_at, pair_at, version_at};
ghost use Rattle.frames.specs.Kinds.{kind_number};

use crate::access;
use crate::kinds::Row;
use crate::numbers::Version;

// The bytes of the longest frame.
pub const LONGEST: usize = 9;

// A frame, and the row of its kind: it begins with the kind's byte.
#[derive(Clone, Copy)]
pub struct Frame {
    pub bytes: [u8; LONGEST],
    pub row: Row,
    ghost begins: { byte_at bytes 0 ≡ kind_number row.kind },
}

// A byte of the frame; 0 past the longest frame.
pub fn byte_in(frame: [u8; LONGEST], at: usize) -> u8
    ensures { result ≡ byte_at frame at }
{
    access::at(&frame, at, 0)
}

// A number of two bytes, the high one first.
pub fn pair_in(frame: [u8; LONGEST], at: u8) -> u16
    ensures { result ≡ pair_at frame at }
{
    let i = at as usize;
    u16::from_be_bytes([byte_in(frame, i), byte_in(frame, i + 1)])
}

pub fn version_in(frame: [u8; LONGEST], at: u8) -> Version
    ensures { result.0 ≡ version_at frame at }
{
    let i = at as usize;
    let [major, minor, patch] = [
        byte_in(frame, i),
        byte_in(frame, i + 1),
        byte_in(frame, i + 2),
    ];
    Version(u32::from_be_bytes([0, major, minor, patch]))
}
