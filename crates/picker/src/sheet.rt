// A sheet's text: a head with a count, the lines as the search noted them, and an end.
ghost use Rattle.std.specs.Prelude.{◌≡◌, ◌+◌, ◌≤◌, length, take};
ghost use Rattle.std.proofs.lemmas.List.Edits.{sets};
ghost use Rattle.picker.specs.Written.{sheet_in};

use crate::area;
use frames::kinds::Kind;
use frames::written;

// Writes a sheet's text at the start of an area, with `count` lines whose text ends at `end`; says how long it is. Every other byte of the area stays.
pub fn write_sheet(out: &mut [u8], lines: &[u8], count: u16, end: usize) -> usize
    requires has { end ≤ length lines.now }
    requires room { end + 14 ≤ length out.old }
    ensures size { result ≡ length (sheet_in (take end lines.now) count) }
    ensures area { out.new ≡ sets out.old 0 (sheet_in (take end lines.now) count) }
{
    let [high, low] = count.to_be_bytes();
    let start = written::write_frame(out, 0, &[Kind::SheetHead as u8, high, low]);
    let stop = area::copy(out, start, lines, end);
    written::write_frame(out, stop, &[Kind::SheetEnd as u8])
}
