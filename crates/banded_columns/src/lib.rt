// A band of a banded legend, and an array of bands read by its columns: starts, ends and colours, and the outer bands' colours
// (docs/RULES.md, "Banded").
#![tactic(auto)]

ghost use Rattle.std.specs.Prelude.{◌≡◌, map, min};
ghost use Rattle.banded_columns.specs.declared.LegendBand.{LegendBand};
ghost use Rattle.banded_columns.specs.Band.{holds};
ghost use Rattle.banded_columns.specs.OuterColors.{first_color_or, last_color_or};

// A band: from its start up to, but not at, its end.
#[repr(C)]
#[derive(Clone, Copy)]
pub struct LegendBand {
    pub start: f32,
    pub end: f32,
    pub color: u32,
}

impl LegendBand {
    pub fn holds(self, value: f32) -> bool
        ensures { result ≡ holds self value }
    {
        (value >= self.start) & (value < self.end)
    }
}

// ---- columns

// The starts of the bands: the painters lend numbers to their loops, once per painting. Loops: by `bands.map(..)` a painting of 64 samples takes up to
// 2.5 times as long.
pub fn starts_of(bands: [LegendBand; 64]) -> [f32; 64]
    ensures { result ≡ map (λ (b : LegendBand). b.start) bands }
{
    let mut starts = [0.0f32; 64];
    for i in 0..64 {
        starts[i] = bands[i].start;
    }
    starts
}

// Their ends.
pub fn ends_of(bands: [LegendBand; 64]) -> [f32; 64]
    ensures { result ≡ map (λ (b : LegendBand). b.end) bands }
{
    let mut ends = [0.0f32; 64];
    for i in 0..64 {
        ends[i] = bands[i].end;
    }
    ends
}

// Their colours.
pub fn colors_of(bands: [LegendBand; 64]) -> [u32; 64]
    ensures { result ≡ map (λ (b : LegendBand). b.color) bands }
{
    let mut colors = [0u32; 64];
    for i in 0..64 {
        colors[i] = bands[i].color;
    }
    colors
}

// ---- the outer bands

pub fn first_color(bands: &[LegendBand], other: u32) -> u32
    ensures { result ≡ first_color_or bands.now other }
{
    bands.first().map_or(other, |band| band.color)
}

pub fn last_color(bands: &[LegendBand], other: u32) -> u32
    ensures { result ≡ last_color_or bands.now other }
{
    match bands {
        [] => other,
        [.., last] => last.color,
    }
}

pub fn at_most_64(count: usize) -> usize
    ensures { result ≡ min count 64 }
{
    count.min(64)
}
