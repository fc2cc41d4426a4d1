// The rule of a linear legend at a mappable sample, plainly and in lanes (docs/RULES.md, "Linear").
#![tactic(auto)]

ghost use Rattle.std.specs.Prelude.{◌≡◌, ◌≤◌, get_or};
ghost use Rattle.std.specs.Float.{nan};
ghost use Rattle.floats.specs.RampIndex.{nought};
ghost use Rattle.lists.specs.Lanes.{LanesOf};
ghost use Rattle.interpolate.specs.Fraction.{plain_fraction};
ghost use Rattle.linear_rule.specs.forms.LinearRules.{plain_color_by, lane_color_by, color_in_range};

use colormapper::UnmappableColors;
use linear::Linear;

// What a linear legend is looked up by: a range over a ramp that is lent, and the colours out of range.
#[derive(Clone, Copy)]
pub struct LinearRule<'a> {
    pub cmap: &'a [u32; 256],
    pub start: f32,
    pub end: f32,
    pub colors: UnmappableColors,
}

impl LinearRule<'_> {
    // ---- the plain rule

    // The colour of a mappable sample.
    pub fn color_for_numeric_value(self, value: f32) -> u32
        ensures { result ≡ plain_color_by self.entry value }
    {
        let fraction = interpolate::linear_map_to_float(value, self.start, self.end);
        let color = lookup::get_color(self.cmap, fraction);
        self.in_range(value, color)
    }

    // The same for sixteen samples, in phases: each is a loop that is vectorised.
    pub fn colors_for_numeric_values(self, value: [f32; 16]) -> [u32; 16]
        ensures { LanesOf 0 16 (λ k. plain_color_by self.entry (get_or value k nan)) result }
    {
        let fraction = self.fractions(value);
        let color = lookup::get_colors(self.cmap, fraction);
        self.in_ranges(16, value, color)
    }

    // The plain fractions of sixteen samples: the lanes', once the start is known not to be above the end.
    fn fractions(self, value: [f32; 16]) -> [f32; 16]
        ensures { LanesOf nought 16 (λ k. plain_fraction self.entry.start self.entry.end (get_or value k nan)) result }
    {
        if self.end < self.start {
            return [0.0f32; 16];
        }
        interpolate::linear_map_to_float_simd(16, value, self.start, self.end)
    }

    // ---- the lane rule

    // The colours of a chunk of L lanes. With the lane count as a value the phases are not unrolled and vectorised, and the painting
    // is three times slower.
    pub fn color_for_numeric_value_simd<const L: usize>(self, value: [f32; 16]) -> [u32; 16]
        requires { L ≤ 16 }
        ensures { LanesOf 0 L (λ k. lane_color_by self.entry (get_or value k nan)) result }
    {
        let fraction = interpolate::linear_map_to_float_simd(L, value, self.start, self.end);
        let color = lookup::get_color_simd(L, self.cmap, fraction);
        self.in_ranges(L, value, color)
    }

    // ---- both

    // Low and high out of range, else the colours that were looked up.
    #[tactic(auto, using(lists::proofs::LanesOf::stored_lanes))]
    fn in_ranges(self, lanes: usize, value: [f32; 16], color: [u32; 16]) -> [u32; 16]
        requires { lanes ≤ 16 }
        ensures { LanesOf 0 lanes (λ k. color_in_range self.entry (get_or value k nan) (get_or color k 0)) result }
    {
        let mut result = [0u32; 16];
        for i in 0..lanes {
            result[i] = self.in_range(value[i], color[i]);
        }
        result
    }

    fn in_range(self, value: f32, color: u32) -> u32
        ensures { result ≡ color_in_range self.entry value color }
    {
        let below = value < self.start - Linear::EDGE_TOLERANCE;
        let above = value > self.end + Linear::EDGE_TOLERANCE;
        select::pick(
            below,
            self.colors.low,
            select::pick(above, self.colors.high, color),
        )
    }
}
