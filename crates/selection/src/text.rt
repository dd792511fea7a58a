// A selection's text: a head with a count, a line for each module that has a version chosen, and an end.
ghost use Rattle.std.specs.Prelude.{◌≡◌, ◌+◌, ◌*◌, ◌≤◌, length};
ghost use mathlib.Core.List.{flat_map};
ghost use Rattle.std.proofs.lemmas.List.Edits.{sets};
ghost use Rattle.selection.specs.Written.{settled_in, line_of, line_in, text_in};

use frames::kinds::Kind;
use frames::numbers::{ModuleNo, Version};
use frames::{access, written};

// How many of the first modules have a version chosen.
pub fn count_settled(chosen: &[u16], modules: u16) -> u16
    ensures { result ≡ length (settled_in chosen.now modules) }
{
    let mut count: u16 = 0;
    for k in 0..modules {
        let state = access::at(chosen, k as usize, 0);
        if 0 < state {
            count += 1;
        }
    }
    count
}

// Writes the line of a module at a version; says where the line ends.
pub fn write_selected(out: &mut [u8], at: usize, m: ModuleNo, v: Version) -> usize
    requires { at + 13 ≤ length out.old }
    ensures size { result ≡ at + 13 }
    ensures area { out.new ≡ sets out.old at (line_of m.0 v.0) }
{
    let [_, major, minor, patch] = v.0.to_be_bytes();
    let [_, owner] = m.0.to_be_bytes();
    let line = [Kind::Selected as u8, owner, major, minor, patch];
    written::write_frame(out, at, &line)
}

// Writes the lines of those of the first modules that have a version chosen; says where the last one ends.
pub fn write_all(out: &mut [u8], at: usize, values: &[u32], chosen: &[u16], modules: u16) -> usize
    requires { at + 13 * length (settled_in chosen.now modules) ≤ length out.old }
    ensures size { result ≡ at + 13 * length (settled_in chosen.now modules) }
    ensures area { out.new ≡ sets out.old at
        (flat_map (line_in values.now chosen.now) (settled_in chosen.now modules)) }
{
    let mut end = at;
    for k in 0..modules {
        let state = access::at(chosen, k as usize, 0);
        if 0 < state {
            let v = access::at(values, (state - 1) as usize, 0);
            end = write_selected(out, end, ModuleNo(k), Version(v));
        }
    }
    end
}

// Writes a selection's text at the start of an area; says how long it is. Every other byte of the area stays.
pub fn write_selection(out: &mut [u8], values: &[u32], chosen: &[u16], modules: u16) -> usize
    requires modules_bound { modules ≤ 32 }
    requires room { 428 ≤ length out.old }
    ensures size { result ≡ length (text_in values.now chosen.now modules) }
    ensures area { out.new ≡ sets out.old 0 (text_in values.now chosen.now modules) }
{
    let count = count_settled(chosen, modules);
    let [_, low] = count.to_be_bytes();
    let start = written::write_frame(out, 0, &[Kind::SelectionHead as u8, low]);
    let end = write_all(out, start, values, chosen, modules);
    written::write_frame(out, end, &[Kind::SelectionEnd as u8])
}
