// The colour of a sample by a list of bands, plainly (docs/RULES.md, "Banded").
#![tactic(auto)]

pub mod columns;

ghost use Rattle.std.specs.Prelude.{◌≡◌, cond, ◌<◌, get_or};
ghost use Rattle.std.specs.Float.{nan};
ghost use Rattle.lists.specs.Lanes.{Lanes};
ghost use Rattle.colormapper.specs.Tolerance.{within};
ghost use Rattle.banded_columns.specs.Band.{holds};
ghost use Rattle.banded_rule.specs.forms.Columns.{band_at, bands_of};
ghost use Rattle.banded_rule.specs.PlainRule.{plain_color};
ghost use Rattle.banded_rule.specs.forms.Steps.{first_color, edge_color};

use banded::Banded;
use banded_columns::LegendBand;
use colormapper::UnmappableColors;
pub use columns::Columns;

// ---- the plain rule

// The colour of one sample.
pub fn color_for_numeric_value(columns: Columns, u: UnmappableColors, value: f32) -> u32
    ensures { result ≡ plain_color (bands_of columns.entry) u value }
{
    if columns.count == 0 {
        return u.nodata;
    }
    for i in 0..columns.count {
        let band = columns.band_at(i);
        if band.holds(value) {
            return band.color;
        }
    }
    let first = columns.first();
    let last = columns.last();
    edge_color(first, last, u, value)
}

// The colours of sixteen samples at once.
pub fn colors_for_numeric_values(
    columns: Columns,
    u: UnmappableColors,
    value: [f32; 16],
) -> [u32; 16]
    ensures { Lanes 0 16 result (λ k. plain_color (bands_of columns.entry) u (get_or value k nan)) }
{
    if columns.count == 0 {
        return [u.nodata; 16];
    }
    let edged = edge_colors(columns.first(), columns.last(), u, value);
    first_colors(columns, value, edged)
}

// The colour of the first band that holds each sample: from the last band to the first, each overwrites the samples that it
// holds, so that no sample has to keep whether it was found.
fn first_colors(columns: Columns, value: [f32; 16], otherwise: [u32; 16]) -> [u32; 16]
    ensures { Lanes 0 16 result (λ k. first_color (bands_of columns.entry) (get_or value k nan) (get_or otherwise k 0)) }
{
    let mut result = otherwise;
    for i in (0..columns.count).rev() {
        let next = overwritten(columns.band_at(i), value, result);
        result = next;
    }
    result
}

// The band's colour for the samples that it holds.
fn overwritten(band: LegendBand, value: [f32; 16], words: [u32; 16]) -> [u32; 16]
    ensures { Lanes 0 16 result (λ k. cond (holds band (get_or value k nan)) band.color (get_or words k 0)) }
{
    let mut result = [0u32; 16];
    for i in 0..16 {
        result[i] = select::pick(band.holds(value[i]), band.color, words[i]);
    }
    result
}

// The colour of a sample that no band holds.
fn edge_color(first: LegendBand, last: LegendBand, u: UnmappableColors, value: f32) -> u32
    ensures { result ≡ edge_color first last u value }
{
    let x = select::pick(value > last.end, u.high, u.nodata);
    let y = select::pick(is_within(last.end, value), last.color, x);
    let z = select::pick(value < first.start, u.low, y);
    select::pick(is_within(first.start, value), first.color, z)
}

pub fn edge_colors(
    first: LegendBand,
    last: LegendBand,
    u: UnmappableColors,
    value: [f32; 16],
) -> [u32; 16]
    ensures { Lanes 0 16 result (λ k. edge_color first last u (get_or value k nan)) }
{
    let mut result = [0u32; 16];
    for i in 0..16 {
        result[i] = edge_color(first, last, u, value[i]);
    }
    result
}

// ---- what both rules use

// The band at a place of three columns, counted or not.
pub fn band_at(starts: &[f32; 64], ends: &[f32; 64], colors: &[u32; 64], i: usize) -> LegendBand
    requires { i < 64 }
    ensures { result ≡ band_at starts.now ends.now colors.now i }
{
    LegendBand {
        start: starts[i],
        end: ends[i],
        color: colors[i],
    }
}

// The size of the difference is below the tolerance where the difference and its negative are.
pub fn is_within(edge: f32, value: f32) -> bool
    ensures { result ≡ within edge value }
{
    let d = value - edge;
    (d < Banded::EDGE_TOLERANCE) & (-d < Banded::EDGE_TOLERANCE)
}
