// The values that words stand for, and the words of values.
#![tactic(auto)]

ghost use Rattle.std.specs.Prelude.{◌≡◌, ◌%◌};
ghost use Rattle.words.specs.Values.{word_as_number, float_of, bits_of, short_of, whole_of, signed_of, unsigned_of, low_of, high_of, at_most};

// A word of its bytes, the lowest first.
pub fn word(a: u8, b: u8, c: u8, d: u8) -> u32
    ensures { result ≡ word_as_number a b c d }
{
    u32::from_le_bytes([a, b, c, d])
}

// The float with these bits, one NaN for all patterns of a NaN.
#[tactic(auto, using(crate::proofs::Floats::nan_above, crate::proofs::Floats::number_below), unfolding(crate::specs::Values::float_of))]
pub fn float(word: u32) -> f32
    ensures { result ≡ float_of word }
{
    if word % 0x8000_0000 > 0x7f80_0000 {
        return f32::NAN;
    }
    f32::from_bits(word)
}

// A float's bits, one pattern for a NaN.
#[tactic(auto, using(crate::proofs::Floats::nan_bits_lem), unfolding(crate::specs::Values::bits_of))]
pub fn bits(x: f32) -> u32
    ensures { result ≡ bits_of x }
{
    if x.is_nan() {
        return 0x7fc0_0000;
    }
    f32::to_bits(x)
}

// A number that a word holds.
pub fn wide(word: u32) -> usize
    ensures { result ≡ word }
{
    word as usize
}

// The low word of a count.
pub fn count_word(count: usize) -> u32
    ensures { result ≡ count % 4294967296 }
{
    (count % 0x1_0000_0000) as u32
}

// The low byte.
pub fn byte(word: u32) -> u8
    ensures { result ≡ word % 256 }
{
    (word % 256) as u8
}

// The low half, in two's complement.
#[tactic(auto, unfolding(crate::specs::Values::short_of))]
pub fn short(word: u32) -> i16
    ensures { result ≡ short_of word }
{
    ((word % 65536) as u16).cast_signed()
}

// A whole number in two's complement, of one word.
#[tactic(auto, unfolding(crate::specs::Values::whole_of))]
pub fn key(word: u32) -> i64
    ensures { result ≡ whole_of word }
{
    word.cast_signed() as i64
}

// The same of 64 bits, and those bits of a whole number.
#[tactic(auto, unfolding(crate::specs::Values::signed_of))]
pub fn signed(bits: u64) -> i64
    ensures { result ≡ signed_of bits }
{
    bits.cast_signed()
}

pub fn unsigned(key: i64) -> u64
    ensures { result ≡ unsigned_of key }
{
    key.cast_unsigned()
}

// The words of a whole number in two's complement, the low one and the high one.
pub fn low(key: i64) -> u32
    ensures { result ≡ low_of key }
{
    (unsigned(key) % 0x1_0000_0000) as u32
}

pub fn high(key: i64) -> u32
    ensures { result ≡ high_of key }
{
    (unsigned(key) / 0x1_0000_0000) as u32
}

// A count of the first entries of a list of so many.
pub fn at_most(word: u32, most: usize) -> usize
    ensures { result ≡ at_most word most }
{
    (word as usize).min(most)
}
