// Frames as they are written: pairs of digits, a byte that makes the sum 0, and a line feed.
ghost use Rattle.std.specs.Prelude.{◌≡◌, ◌+◌, ◌*◌, ◌≤◌, ◌∷◌, [], length};
ghost use Rattle.std.proofs.lemmas.List.Edits.{sets};
ghost use Rattle.rules.specs.Frames.{digit_byte, hex_of, frame_text};

// The digit of a number below 16.
pub fn hex(d: u8) -> u8
    requires { d ≤ 15 }
    ensures { result ≡ digit_byte d }
{
    if d < 10 {
        return b'0' + d;
    }
    b'A' - 10 + d
}

// Writes a byte as a pair of digits into an area at a place. Every other byte of the area stays.
fn write_byte(out: &mut [u8], at: usize, byte: u8)
    requires { at + 2 ≤ length out.old }
    ensures { out.new ≡ sets out.old at (hex_of (byte ∷ [])) }
{
    out[at] = hex(byte / 16);
    out[at + 1] = hex(byte % 16);
}

// Writes a frame's line into an area at a place; says where the line ends. Every other byte of the area stays.
pub fn write_frame(out: &mut [u8], at: usize, bytes: &[u8]) -> usize
    requires { at + (2 * length bytes.now + 3) ≤ length out.old }
    ensures size { result ≡ at + (2 * length bytes.now + 3) }
    ensures area { out.new ≡ sets out.old at (frame_text bytes.now) }
{
    let mut sum: u32 = 0;
    let mut end = at;
    for &b in bytes {
        write_byte(out, end, b);
        sum = (sum + b as u32) % 256;
        end += 2;
    }
    let check = (256 - sum) % 256;
    write_byte(out, end, check as u8);
    out[end + 2] = b'\n';
    end + 3
}
