// Settings, and the colours of samples that a legend does not map (docs/RULES.md, "Samples and settings").
// Arrays hold sixteen lanes and `lanes` says how many count: contracts and must-fail edits speak of the places beyond (lanes_beyond_nodata).
#![tactic(auto)]

ghost use Rattle.std.specs.Prelude.{◌≡◌, cond, ◌≤◌, get_or};
ghost use Rattle.std.specs.Float.{nan};
ghost use Rattle.floats.specs.RampIndex.{nought};
ghost use Rattle.lists.specs.Lanes.{LanesOf};
ghost use Rattle.colormapper.specs.Settings.{color_if, given_flag, flag_of, unmappable_colors, no_settings};
ghost use Rattle.colormapper.specs.Unmappable.{unmappable};
ghost use Rattle.colormapper.specs.forms.Exclusions.{excluded, value_or_nan, exclusions_of};

use color::Color;

// The settings of a legend.
#[derive(Clone, Copy)]
pub struct MappingConfig {
    pub nodata_color: u32,
    pub out_of_range_low_color: Option<u32>,
    pub out_of_range_high_color: Option<u32>,
    pub zero_is_nodata: bool,
}

// The colours of unmappable samples and of samples out of range.
#[derive(Clone, Copy)]
pub struct UnmappableColors {
    pub nodata: u32,
    pub low: u32,
    pub high: u32,
}

// The two values whose samples are unmappable, NaN where there is none: nothing equals it.
#[derive(Clone, Copy)]
pub struct Exclusions {
    pub nodata: f32,
    pub zero: f32,
}

impl MappingConfig {
    pub fn default() -> MappingConfig
        ensures { result ≡ no_settings }
    {
        MappingConfig {
            nodata_color: Color::TRANSPARENT.to_bits(),
            out_of_range_low_color: None,
            out_of_range_high_color: None,
            zero_is_nodata: false,
        }
    }
}

// ---- flags, 0 or 1, for whoever stores settings as numbers

// A colour beside the flag that says whether it is there.
pub fn color_if(given: u32, color: u32) -> Option<u32>
    ensures { result ≡ color_if given color }
{
    (given == 1).then_some(color)
}

pub fn given_flag(color: Option<u32>) -> u32
    ensures { result ≡ given_flag color }
{
    color.is_some() as u32
}

pub fn flag_of(set: bool) -> u32
    ensures { result ≡ flag_of set }
{
    set as u32
}

// ---- unmappable samples

// The settings' colours, with a kind's own colours where low or high is absent.
pub fn compute_unmappable_colors(config: MappingConfig, low: u32, high: u32) -> UnmappableColors
    ensures { result ≡ unmappable_colors config low high }
{
    UnmappableColors {
        nodata: config.nodata_color,
        low: config.out_of_range_low_color.unwrap_or(low),
        high: config.out_of_range_high_color.unwrap_or(high),
    }
}

// Whether a sample gets the nodata colour.
pub fn is_unmappable(value: f32, nodata: Option<f32>, zero_is_nodata: bool) -> bool
    ensures { result ≡ unmappable nodata zero_is_nodata value }
{
    exclusions_of(nodata, zero_is_nodata).excludes(value)
}

// What the test of a sample needs, worked out once for a painting.
pub fn exclusions_of(nodata: Option<f32>, zero_is_nodata: bool) -> Exclusions
    ensures { result ≡ exclusions_of nodata zero_is_nodata }
{
    Exclusions {
        nodata: value_or_nan(nodata),
        zero: zero_or_nan(zero_is_nodata),
    }
}

fn value_or_nan(nodata: Option<f32>) -> f32
    ensures { result ≡ value_or_nan nodata }
{
    match nodata {
        Some(v) => v,
        None => 0.0 / 0.0,
    }
}

fn zero_or_nan(flag: bool) -> f32
    ensures { result ≡ cond flag nought nan }
{
    if flag { 0.0 } else { 0.0 / 0.0 }
}

impl Exclusions {
    // Whether a sample is unmappable: a NaN, or equal to one of the two.
    pub fn excludes(self, value: f32) -> bool
        ensures { result ≡ excluded self value }
    {
        (value != value) | (value == self.nodata) | (value == self.zero)
    }

    // The colour, or nodata for an unmappable sample.
    pub fn masked(self, value: f32, nodata: u32, color: u32) -> u32
        ensures { result ≡ cond (excluded self value) nodata color }
    {
        if self.excludes(value) { nodata } else { color }
    }

    // The same for each lane. The lane count is a literal of the caller's.
    #[tactic(auto, using(lists::proofs::LanesOf::stored_lanes))]
    pub fn masked_simd(
        self,
        lanes: usize,
        value: [f32; 16],
        nodata: u32,
        color: [u32; 16],
    ) -> [u32; 16]
        requires { lanes ≤ 16 }
        ensures { LanesOf 0 lanes (λ k. cond (excluded self (get_or value k nan)) nodata (get_or color k 0)) result }
    {
        let mut result = [0u32; 16];
        for i in 0..lanes {
            result[i] = self.masked(value[i], nodata, color[i]);
        }
        result
    }
}
