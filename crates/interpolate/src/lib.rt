// Where a value lies in a range, from 0 to 1: plainly, and in lanes.
#![tactic(auto)]

ghost use Rattle.std.specs.Prelude.{◌≡◌, ◌≤◌, get_or};
ghost use Rattle.std.specs.Float.{nan};
ghost use Rattle.floats.specs.RampIndex.{nought};
ghost use Rattle.lists.specs.Lanes.{LanesOf};
ghost use Rattle.interpolate.specs.Fraction.{fraction, plain_fraction};

#[tactic(auto, unfolding(crate::specs::Fraction::plain_fraction))]
pub fn linear_map_to_float(value: f32, min: f32, max: f32) -> f32
    ensures { result ≡ plain_fraction min max value }
{
    if min > max {
        return 0.0;
    }
    lane_fraction(value, min, max)
}

// One lane of `linear_map_to_float_simd`.
// The quotient is worked out first, so that the two tests become selects.
#[tactic(auto, unfolding(crate::specs::Fraction::fraction))]
pub fn lane_fraction(value: f32, min: f32, max: f32) -> f32
    ensures { result ≡ fraction min max value }
{
    let quotient = (value - min) / (max - min);
    if value <= min {
        return 0.0;
    }
    if value >= max {
        return 1.0;
    }
    quotient
}

// The lane count is a literal of the caller's: a test of it here would stand in every chunk.
#[tactic(auto, using(lists::proofs::LanesOf::stored_lanes))]
pub fn linear_map_to_float_simd(lanes: usize, value: [f32; 16], min: f32, max: f32) -> [f32; 16]
    requires { lanes ≤ 16 }
    ensures { LanesOf nought lanes (λ k. fraction min max (get_or value k nan)) result }
{
    let mut result = [0.0f32; 16];
    for i in 0..lanes {
        result[i] = lane_fraction(value[i], min, max);
    }
    result
}
