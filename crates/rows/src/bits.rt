// Words of bits: one bit and all bits by a shift, any others built from the last bit down; and the bits of a word.
ghost use Rattle.std.specs.Prelude.{◌≡◌};
ghost use Rattle.rows.specs.Bits.{digit, has_bit, in_word, all_bits, all_but, one_bit};

// Bits of a word.
pub const BITS: u16 = 32;

// A bit as a number.
#[inline]
pub fn digit_of(bit: bool) -> u32
    ensures { result ≡ digit bit }
{
    u32::from(bit)
}

// No more bits than a word has.
#[inline]
pub fn in_word(count: u16) -> u16
    ensures { result ≡ in_word count }
{
    count.min(BITS)
}

// The word of one bit: it has none where the bit is past a word's last.
#[inline]
pub fn one_bit(at: u16) -> u32
    ensures { result ≡ one_bit at }
{
    if at < BITS {
        return 1u32 << at;
    }
    0
}

// The word of all of the first bits.
#[inline]
pub fn all_bits(count: u16) -> u32
    ensures { result ≡ all_bits count }
{
    if count < BITS {
        return one_bit(count) - 1;
    }
    u32::MAX
}

// The word of all of the first bits but one.
pub fn all_but(count: u16, at: u16) -> u32
    ensures { result ≡ all_but count at }
{
    let mut word: u32 = 0;
    let bits = in_word(count);
    for k in (0..bits).rev() {
        word = word * 2 + digit_of(k != at);
    }
    word
}

// A bit of a word; the lowest is bit 0.
#[inline]
pub fn has_bit(word: u32, at: u16) -> bool
    ensures { result ≡ has_bit word at }
{
    if at < BITS {
        return (word >> at) & 1 == 1;
    }
    false
}
