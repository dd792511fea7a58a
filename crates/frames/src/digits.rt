// A pair of digits of a text, read as a byte.
ghost use Rattle.std.specs.Prelude.{◌≡◌};
ghost use Rattle.frames.specs.Digits.{digit_in, pair_at};

// What stands at a place of a text: a pair of digits, the end of a line, or something that can't stand there. It has three cases, so it is neither an
// Option nor a Result.
#[derive(Clone, Copy)]
pub enum Pair {
    Byte(u8),
    LineFeed,
    Wrong,
}

// A digit's value.
pub fn digit(c: u8) -> Option<u8>
    ensures { result ≡ digit_in c }
{
    match c {
        b'0'..=b'9' => Some(c - b'0'),
        b'A'..=b'F' => Some(c - b'A' + 10),
        _ => None,
    }
}

// The second character is looked at only where the first is a digit.
pub fn pair_at(text: &[u8], at: usize) -> Pair
    ensures { result ≡ pair_at text.now at }
{
    if text.len() <= at {
        return Pair::Wrong;
    }
    let first = text[at];
    if first == b'\n' {
        return Pair::LineFeed;
    }
    let Some(high) = digit(first) else {
        return Pair::Wrong;
    };
    let next = at + 1;
    if text.len() <= next {
        return Pair::Wrong;
    }
    let Some(low) = digit(text[next]) else {
        return Pair::Wrong;
    };
    Pair::Byte(high * 16 + low)
}
