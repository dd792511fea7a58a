// The calls for C: numbers and byte areas only, the answer packed into one number of 64 bits.
#![tactic(auto)]

ghost use Rattle.std.specs.Prelude.{◌≡◌};
ghost use Rattle.picker.specs.Checking.{check_of, work_after};
ghost use Rattle.picker_c.specs.Packed.{text_of, packed, packed_pick, packed_check, PackedOwes};

use picker::{Checked, Picked, Text};

// What stands for no text.
const NEITHER: u8 = 0;

// The text that a pick's number finds at fault: the catalogue with 1 to 8.
fn text_of(number: u8) -> u8
    ensures { result ≡ text_of number }
{
    match number {
        1..=8 => Text::Catalogue as u8,
        _ => NEITHER,
    }
}

// A number, the text at fault, a line, a place and a length in one number, from the highest byte down.
fn pack(number: u8, text: u8, line: u32, place: u32, size: u32) -> u64
    ensures { result ≡ packed number text line place size }
{
    let [_, _, line_high, line_low] = line.to_be_bytes();
    let [_, _, place_high, place_low] = place.to_be_bytes();
    let [_, _, size_high, size_low] = size.to_be_bytes();
    u64::from_be_bytes([
        number, text, line_high, line_low, place_high, place_low, size_high, size_low,
    ])
}

// A pick's answer, packed.
fn pack_picked(p: Picked) -> u64
    ensures { result ≡ packed_pick p }
{
    pack(p.number, text_of(p.number), p.line, 0, p.size)
}

// A check's answer, packed.
fn pack_checked(c: Checked) -> u64
    ensures { result ≡ packed_check c }
{
    pack(c.number, c.text, c.line, 0, 0)
}

// Picks for a catalogue's text: the picker's promise of the areas, and its answer packed.
#[unsafe(no_mangle)]
pub extern "C" fn towerbasin_pick(
    text: &[u8],
    selection: &mut [u8],
    sheet: &mut [u8],
    work: &mut [u8],
    allowance: u16,
) -> u64
    ensures { PackedOwes text.now selection.old sheet.old work.old allowance result
        selection.new sheet.new work.new }
{
    pack_picked(picker::pick(text, selection, sheet, work, allowance))
}

// Checks a sheet over a catalogue's text: the checker's answer packed, and its promise of the work area.
#[unsafe(no_mangle)]
pub extern "C" fn towerbasin_check(text: &[u8], sheet: &[u8], work: &mut [u8]) -> u64
    ensures answer { result ≡ packed_check (check_of text.now sheet.now work.old) }
    ensures area { work.new ≡ work_after work.old }
{
    pack_checked(picker::check(text, sheet, work))
}
