// The bands that a builder stores: equal ones and those of manual ranges, in an array of 64 (docs/RULES.md, "Banded").
#![tactic(auto)]

ghost use Rattle.std.specs.Prelude.{◌≡◌, [], ◌≤◌, length};
ghost use Rattle.banded_lists.specs.Padded.{padded_bands};
ghost use Rattle.banded_lists.specs.EqualBands.{band_from, equal_bands, equal_refusal};
ghost use Rattle.banded_lists.specs.ManualRanges.{band_of, range_bands, first_empty, manual_refusal};

use banded_columns::LegendBand;
use refusal::Refusal;

// One manual range, from its start up to its end.
#[repr(C)]
#[derive(Clone, Copy)]
pub struct ValueRange {
    pub start: f32,
    pub end: f32,
}

// The first `count` ranges.
#[repr(C)]
#[derive(Clone, Copy)]
pub struct ValueRanges {
    pub ranges: [ValueRange; 64],
    pub count: usize,
}

pub fn no_bands() -> [LegendBand; 64]
    ensures { result ≡ padded_bands [] }
{
    [LegendBand {
        start: 0.0,
        end: 0.0,
        color: 0,
    }; 64]
}

// ---- equal bands

pub fn equal_refusal(count: usize, start: f32, end: f32, given: usize) -> Result<(), Refusal>
    ensures { result ≡ equal_refusal count start end given }
{
    if start > end {
        return Err(Refusal::StartAboveEnd);
    }
    if count > 64 {
        return Err(Refusal::TooManyBands);
    }
    if given != count {
        return Err(Refusal::ColorCountDiffers);
    }
    Ok(())
}

// The builders refuse a larger count.
pub fn equal_bands(count: usize, start: f32, end: f32, colors: [u32; 256]) -> [LegendBand; 64]
    requires { count ≤ 64 }
    ensures { result ≡ padded_bands (equal_bands count start end colors) }
{
    let step = (end - start) / (count as f32);
    let mut position = start;
    let mut bands = no_bands();
    for i in 0..count {
        bands[i] = band_from(position, step, colors[i]);
        position += step;
    }
    bands
}

fn band_from(position: f32, step: f32, color: u32) -> LegendBand
    ensures { result ≡ band_from position step color }
{
    LegendBand {
        start: position,
        end: position + step,
        color,
    }
}

// ---- manual ranges

pub fn manual_refusal(values: ValueRanges, given: usize) -> Result<(), Refusal>
    ensures { result ≡ manual_refusal values given }
{
    let count = values.count;
    if count > 64 {
        return Err(Refusal::TooManyBands);
    }
    let ranges = values.ranges;
    let first = first_empty(&ranges[..count]);
    if first < count {
        return Err(Refusal::EmptyRange(first));
    }
    if given != count {
        return Err(Refusal::ColorCountDiffers);
    }
    Ok(())
}

// The index of the first empty range, or how many there are.
fn first_empty(ranges: &[ValueRange]) -> usize
    ensures { result ≡ first_empty ranges.now }
{
    ranges
        .iter()
        .position(|range| range.start >= range.end)
        .unwrap_or(ranges.len())
}

// The builders refuse more ranges. That there is a band for each is stated too: a caller does not know that its array has 256 places.
pub fn range_bands(ranges: &[ValueRange], colors: [u32; 256]) -> [LegendBand; 64]
    requires { length ranges.now ≤ 64 }
    ensures { (result ≡ padded_bands (range_bands ranges.now colors)) × (length (range_bands ranges.now colors) ≡ length ranges.now) }
{
    let mut bands = no_bands();
    for (i, range) in ranges.iter().enumerate() {
        bands[i] = band_of(*range, colors[i]);
    }
    bands
}

fn band_of(range: ValueRange, color: u32) -> LegendBand
    ensures { result ≡ band_of range color }
{
    LegendBand {
        start: range.start,
        end: range.end,
        color,
    }
}
