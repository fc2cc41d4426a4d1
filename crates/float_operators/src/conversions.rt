// The casts that the crates use, and the bits of a float.
ghost use Rattle.std.specs.Prelude.{not, ◌≤◌, ◌^◌, T, pos, nat_abs};
ghost use Rattle.std.specs.Float.Ieee as ieee;
ghost use Rattle.std.specs.Float.Ieee.{is_nan, nan_bits};
ghost use Rattle.floats.specs.Formats.{binary32, binary64};
ghost use Rattle.floats.specs.Conversions.{FromInt, Converts};
ghost use Rattle.floats.specs.Encodings.{Encodes};

// A whole number becomes the nearest float. The language defines the cast up to 2^24 in size, where that is the number itself.
pub fn u8_as_f32(byte: u8) -> f32
    ensures { FromInt binary32 (pos byte) result }
{
    byte as f32
}

pub fn i16_as_f32(sample: i16) -> f32
    ensures { FromInt binary32 sample result }
{
    sample as f32
}

pub fn usize_as_f32(count: usize) -> f32
    requires { count ≤ 2 ^ 24 }
    ensures { FromInt binary32 (pos count) result }
{
    count as f32
}

pub fn i64_as_f32(key: i64) -> f32
    requires { nat_abs key ≤ 2 ^ 24 }
    ensures { FromInt binary32 key result }
{
    key as f32
}

// The language defines no cast of a NaN, and neither the bits of one nor a float of such bits.
pub fn f32_as_f64(narrow: f32) -> f64
    requires { T (not (is_nan narrow)) }
    ensures { Converts binary64 narrow result }
{
    narrow as f64
}

pub fn f32_to_bits(x: f32) -> u32
    requires { T (not (is_nan x)) }
    ensures { Encodes binary32 result x }
{
    f32::to_bits(x)
}

pub fn f64_to_bits(x: f64) -> u64
    requires { T (not (is_nan x)) }
    ensures { Encodes binary64 result x }
{
    f64::to_bits(x)
}

pub fn f32_from_bits(bits: u32) -> f32
    requires { T (not (nan_bits ieee.binary32 bits)) }
    ensures { Encodes binary32 bits result }
{
    f32::from_bits(bits)
}
