// The Rust's `round` and `floor` on the small numbers that an index is made of, by one f64 sum and no branch:
// 2^27 more than the number leaves 25 binary places, and the whole part stands in the bits above them.
#![tactic(auto)]

ghost use Rattle.std.specs.Prelude.{◌≡◌, T};
ghost use Rattle.std.specs.Float.Ieee.{le, lt, of_bits};
ghost use Rattle.std.specs.Float.{binary32};
ghost use Rattle.floats.specs.RampIndex.{floor_of, half_up};

// The whole part of p, from 0 to below 1024. A leaf of the lookups, which hand it nothing else.
pub fn floor(p: f32) -> usize
    requires from_zero { T (le (of_bits binary32 0) p) }
    requires below_1024 { T (lt p (of_bits binary32 0x4480_0000)) }
    ensures { result ≡ floor_of p }
{
    let y = (p as f64) + 134217728.0;
    ((f64::to_bits(y) >> 25) % 1024) as usize
}

// The whole number nearest to p, halves up, for p from 0 to 255. A leaf of the lookups, which hand it nothing else.
pub fn nearest(p: f32) -> usize
    requires from_zero { T (le (of_bits binary32 0) p) }
    requires up_to_255 { T (le p (of_bits binary32 0x437F_0000)) }
    ensures { result ≡ half_up p }
{
    let y = (p as f64) + 134217728.5;
    ((f64::to_bits(y) >> 25) % 1024) as usize
}
