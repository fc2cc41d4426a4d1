// Samples and nodata values as f32, and an f32 as a whole number (docs/RULES.md, "Samples and settings" and "Categoric").
#![tactic(auto)]

ghost use Rattle.std.specs.Prelude.{◌≡◌, ◌≤◌, ◌<◌, ◌^◌};
ghost use Rattle.cast.specs.Samples.{of_u8, of_i16};
ghost use Rattle.cast.specs.Truncated.{truncated};
ghost use Rattle.cast.specs.forms.Pattern.{field, whole_part};

// A sample of either type becomes an f32 without loss (proofs/Lossless.antt).
pub fn u8_to_f32(byte: u8) -> f32
    ensures { result ≡ of_u8 byte }
{
    byte as f32
}

pub fn i16_to_f32(x: i16) -> f32
    ensures { result ≡ of_i16 x }
{
    x as f32
}

// The whole part of the size of the float with these bits: the digits below their leading one, shifted.
// It has a `requires` because it is a part of `to_i64`, which alone calls it and has dealt with the other fields:
// below 127 the shift can exceed the width, and from 190 on the result is no i64.
fn magnitude(bits: u32) -> u64
    requires { (127 ≤ field bits) × (field bits < 190) }
    ensures { (result ≡ whole_part bits) × (result < 2 ^ 63) }
{
    let exponent: u32 = (bits >> 23) & 255;
    let digits: u64 = ((bits & 0x7f_ffff) | 0x80_0000) as u64;
    if exponent <= 150 {
        digits >> (150 - exponent)
    } else {
        digits << (exponent - 150)
    }
}

// A float cut toward zero, where that is an i64. From the bits: the sign, the exponent's field and the digits. Below field 127 the size is below 1, from 190 on
// it is at least 2^63, of which -2^63 alone is an i64.
pub fn to_i64(x: f32) -> Option<i64>
    ensures { result ≡ truncated x }
{
    if x != x {
        return None;
    }
    let bits: u32 = f32::to_bits(x);
    let exponent: u32 = (bits >> 23) & 255;
    if exponent < 127 {
        return Some(0);
    }
    if exponent >= 190 {
        if bits == 0xDF00_0000 {
            return Some(-9223372036854775808);
        }
        return None;
    }
    let size: i64 = magnitude(bits) as i64;
    if bits >= 0x8000_0000 {
        return Some(0 - size);
    }
    Some(size)
}
