// The legends of the examples, and what a sample is painted by one of them.
use crate::say;
use banded_lists::{ValueRange, ValueRanges};
use color::Color;
use colormap::ProcessedColorMap;
use colormapper::MappingConfig;
use legend::Legend;
use refusal::Refusal;
use std::io;

// Colours that stand for themselves: those of A and B, and of the settings.
const A: u32 = 101;

const B: u32 = 102;

const NODATA: u32 = 103;

const LOW: u32 = 104;

const HIGH: u32 = 105;

fn settings(zero_is_nodata: bool) -> MappingConfig {
    MappingConfig {
        nodata_color: NODATA,
        out_of_range_low_color: Some(LOW),
        out_of_range_high_color: Some(HIGH),
        zero_is_nodata,
    }
}

// G, the ramp whose entry i is i, i, i, 255.
pub fn gray() -> [u32; 256] {
    let mut ramp = [0u32; 256];
    for level in 0..=255u8 {
        ramp[level as usize] = gray_word(level);
    }
    ramp
}

fn gray_word(level: u8) -> u32 {
    Color::rgb(level, level, level).to_bits()
}

// ---- the legends

pub fn gray_legend(start: f32, end: f32, zero_is_nodata: bool) -> Result<Legend, Refusal> {
    let cmap = gray();
    legend_builders::create_linear_from_ramp(
        ProcessedColorMap { cmap },
        start,
        end,
        settings(zero_is_nodata),
    )
}

// Two bands with the colours A and B.
pub fn two_bands(start: f32, end: f32, next_start: f32, next_end: f32) -> Result<Legend, Refusal> {
    let mut ranges = [ValueRange { start, end }; 64];
    ranges[1] = ValueRange {
        start: next_start,
        end: next_end,
    };
    let values = ValueRanges { ranges, count: 2 };
    legend_builders::create_banded_manual_ranges(&[A, B], values, settings(false))
}

// Eleven equal bands from 0 to 1 with colours of G.
pub fn eleven_bands() -> Result<Legend, Refusal> {
    let ramp = gray();
    legend_builders::create_banded_from_ramp(11, &ramp, 0.0, 1.0, settings(false))
}

// Two keys with the colours A and B.
pub fn two_keys(first: i64, second: i64) -> Result<Legend, Refusal> {
    legend_builders::create_categoric_for_value_list(&[A, B], &[first, second], settings(false))
}

// ---- painting

// Writes the word of a sample: a raster of one, painted plainly.
pub fn painted(rt: &impl Print, made: Result<Legend, Refusal>, value: f32) -> io::Result<()> {
    told(rt, word_of(made, value))
}

fn word_of(made: Result<Legend, Refusal>, value: f32) -> Result<u32, Refusal> {
    let legend = made?;
    let samples = [value; 1];
    let mut words = [0u32; 1];
    legend_apply::apply_to_data_scalar(&legend, &samples, None, &mut words)?;
    Ok(words[0])
}

// Writes the word of a sample in a chunk of four lanes, the second of which holds another sample.
pub fn painted_in_lanes(
    rt: &impl Print,
    made: Result<Legend, Refusal>,
    value: f32,
    second: f32,
) -> io::Result<()> {
    told(rt, word_in_lanes(made, value, second))
}

fn word_in_lanes(made: Result<Legend, Refusal>, value: f32, second: f32) -> Result<u32, Refusal> {
    let legend = made?;
    let samples = [value, second, value, value];
    let mut words = [0u32; 4];
    let mut scratch = [0u32; 16];
    legend_apply::apply_to_data_kernel(&legend, 4, &samples, None, &mut words, &mut scratch)?;
    Ok(words[0])
}

pub fn painted_both_ways(
    rt: &impl Print,
    made: Result<Legend, Refusal>,
    value: f32,
) -> io::Result<()> {
    painted(rt, made, value)?;
    painted_in_lanes(rt, made, value, value)
}

// Writes the word, or why there is none.
fn told(rt: &impl Print, word: Result<u32, Refusal>) -> io::Result<()> {
    match word {
        Ok(word) => say::word(rt, word),
        Err(why) => say::refused(rt, why),
    }
}

// ---- a categoric record's counts

pub fn key_count(rt: &impl Print, made: Result<Legend, Refusal>) -> io::Result<()> {
    match made {
        Ok(legend) => say::count(rt, legend.categoric.count),
        Err(why) => say::refused(rt, why),
    }
}

pub fn table_words(rt: &impl Print, made: Result<Legend, Refusal>) -> io::Result<()> {
    match made {
        Ok(legend) => say::count(rt, legend.categoric.lookup_count),
        Err(why) => say::refused(rt, why),
    }
}
