// Lent areas: all bytes made 0, and bytes copied from one area into another.
ghost use Rattle.std.specs.Prelude.{◌≡◌, ◌+◌, ◌≤◌, length, take};
ghost use Rattle.std.proofs.lemmas.List.Edits.{sets};
ghost use Rattle.picker.specs.Entry.{zeroed};

// Makes every byte of an area 0.
pub fn clear(area: &mut [u8])
    ensures { area.new ≡ zeroed area.old }
{
    area.fill(0);
}

// Copies the first bytes of a text into an area at a place; says where they end. Every other byte of the area stays. It is a loop, since a copy by the
// library would have the archive for C need memmove of whoever links it.
pub fn copy(out: &mut [u8], at: usize, text: &[u8], count: usize) -> usize
    requires has { count ≤ length text.now }
    requires room { at + count ≤ length out.old }
    ensures size { result ≡ at + count }
    ensures area { out.new ≡ sets out.old at (take count text.now) }
{
    for i in 0..count {
        out[at + i] = text[i];
    }
    at + count
}
