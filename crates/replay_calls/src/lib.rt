// What calls answer, in the words of a row (crates/run_replay/README.md): refusals, ranges and records; and rows of single calls worked out
// anew: palettes, hex texts, lookups in ramps, and samples as whole numbers.
#![tactic(auto)]

pub mod record;
pub mod reply;

ghost use Rattle.std.specs.Prelude.{◌≡◌};
ghost use Rattle.replay_calls.specs.Rows.{with_palette, palette_row, with_hex, hex_row, lookup_row};
ghost use Rattle.replay_calls.specs.Rows.{whole_low, whole_high, whole_there, truncated_by, truncated_row};

use color::Color;
use colormap::ProcessedColorMap;
use palettes::Palette;
use refusal::Refusal;
use replay_rows::{part, place};

// ---- palettes: the answer, how many colours there are, and the colours

fn with_palette(row: [u32; 1680], palette: Result<Palette, Refusal>) -> [u32; 1680]
    ensures { result ≡ with_palette palette row }
{
    match palette {
        Ok(made) => {
            let colors = made.colors;
            let mut answered = reply::with_answer(row, Ok(()));
            answered[place::RANGE] = words::count_word(made.count);
            part::put(answered, place::PLAIN, &colors)
        }
        Err(why) => reply::with_answer(row, Err(why)),
    }
}

#[tactic(auto, unfolding(crate::specs::Rows::palette_row))]
pub fn palette(row: &[u32; 1680]) -> [u32; 1680]
    ensures { result ≡ palette_row row.now }
{
    let palette = palettes::palette_of(words::wide(row[place::SOURCE]));
    with_palette(part::asked(row), palette)
}

// ---- hex texts: the answer and the colour

fn with_hex(row: [u32; 1680], color: Result<Color, Refusal>) -> [u32; 1680]
    ensures { result ≡ with_hex color row }
{
    match color {
        Ok(made) => {
            let mut answered = reply::with_answer(row, Ok(()));
            answered[place::RANGE] = made.to_bits();
            answered
        }
        Err(why) => reply::with_answer(row, Err(why)),
    }
}

pub fn hex(row: &[u32; 1680]) -> [u32; 1680]
    ensures { result ≡ hex_row row.now }
{
    let text = part::bytes(row, place::NUMBERS);
    let count = words::at_most(row[place::COUNT], 40);
    let color = Color::from_hex_string(&text[..count]);
    with_hex(part::asked(row), color)
}

// ---- lookups: the answer, the ramp, and sixteen fractions looked up plainly and in sixteen lanes

pub fn lookups(row: &[u32; 1680]) -> [u32; 1680]
    ensures { result ≡ lookup_row row.now }
{
    let made = replay_legends::build::ramp(row);
    let ramp = made.unwrap_or(ProcessedColorMap::default());
    let cmap = ramp.cmap;
    let fractions = part::fractions(row);
    let plain = lookup::get_colors(&cmap, fractions);
    let lanes = lookup::get_color_simd(16, &cmap, fractions);
    let answered = reply::with_answer(part::asked(row), made.and(Ok(())));
    let with_ramp = part::put(answered, place::COLOR_LIST, &cmap);
    let with_plain = part::put(with_ramp, place::PLAIN, &plain);
    part::put(with_plain, place::LANES_16, &lanes)
}

// ---- whole numbers: low words, high words, and whether there is one

fn whole_low(sample: Option<i64>) -> u32
    ensures { result ≡ whole_low sample }
{
    match sample {
        Some(key) => words::low(key),
        None => 0,
    }
}

fn whole_high(sample: Option<i64>) -> u32
    ensures { result ≡ whole_high sample }
{
    match sample {
        Some(key) => words::high(key),
        None => 0,
    }
}

fn whole_there(sample: Option<i64>) -> u32
    ensures { result ≡ whole_there sample }
{
    match sample {
        Some(_) => 1,
        None => 0,
    }
}

#[tactic(auto, using(replay_rows::proofs::Stored::storing), unfolding(crate::specs::Rows::truncated_by))]
fn low_words(samples: [f32; 16]) -> [u32; 16]
    ensures { result ≡ truncated_by whole_low samples }
{
    let mut words = [0u32; 16];
    for i in 0..16 {
        words[i] = whole_low(cast::to_i64(samples[i]));
    }
    words
}

#[tactic(auto, using(replay_rows::proofs::Stored::storing), unfolding(crate::specs::Rows::truncated_by))]
fn high_words(samples: [f32; 16]) -> [u32; 16]
    ensures { result ≡ truncated_by whole_high samples }
{
    let mut words = [0u32; 16];
    for i in 0..16 {
        words[i] = whole_high(cast::to_i64(samples[i]));
    }
    words
}

#[tactic(auto, using(replay_rows::proofs::Stored::storing), unfolding(crate::specs::Rows::truncated_by))]
fn there_words(samples: [f32; 16]) -> [u32; 16]
    ensures { result ≡ truncated_by whole_there samples }
{
    let mut words = [0u32; 16];
    for i in 0..16 {
        words[i] = whole_there(cast::to_i64(samples[i]));
    }
    words
}

#[tactic(auto, unfolding(crate::specs::Rows::truncated_row))]
pub fn truncated(row: &[u32; 1680]) -> [u32; 1680]
    ensures { result ≡ truncated_row row.now }
{
    let fractions = part::fractions(row);
    let low = low_words(fractions);
    let high = high_words(fractions);
    let there = there_words(fractions);
    let with_low = part::put(part::asked(row), place::PLAIN, &low);
    let with_high = part::put(with_low, place::LANES_4, &high);
    part::put(with_high, place::LANES_8, &there)
}
