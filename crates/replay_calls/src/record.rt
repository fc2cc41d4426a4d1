// The words of what a legend holds: ten for its kind, its settings, its bounds and its counts; then the arrays of its kind.
ghost use Rattle.std.specs.Prelude.{◌≡◌, ◌≤◌};
ghost use Rattle.colormapper.specs.Settings.{given_flag};
ghost use Rattle.replay_calls.specs.Records.{flags_word, head_words, float_words, key_words, with_bands, with_categories, with_record};

use banded::Banded;
use catgegoric::CategoricNumeric;
use colormapper::MappingConfig;
use legend::{Legend, LegendKind};
use replay_rows::{part, place};

// ---- ten words

fn given_word(color: Option<u32>) -> u32
    ensures { (result ≡ given_flag color) × (result ≤ 1) }
{
    match color {
        Some(_) => 1,
        None => 0,
    }
}

fn flags_word(config: MappingConfig) -> u32
    ensures { result ≡ flags_word config }
{
    let low_color = config.out_of_range_low_color;
    let high_color = config.out_of_range_high_color;
    let low = given_word(low_color);
    let high = given_word(high_color);
    low + 2 * high + 4 * (config.zero_is_nodata as u32)
}

fn head_words(legend: Legend) -> [u32; 10]
    ensures { result ≡ head_words legend }
{
    let config = legend.mapping_config;
    let linear = legend.linear;
    let banded = legend.banded;
    let categoric = legend.categoric;
    let kind = legend.kind;
    let low_color = config.out_of_range_low_color;
    let high_color = config.out_of_range_high_color;
    let mut words = [0u32; 10];
    words[0] = kind.number();
    words[1] = config.nodata_color;
    words[2] = flags_word(config);
    words[3] = low_color.unwrap_or(0);
    words[4] = high_color.unwrap_or(0);
    words[5] = words::bits(linear.start);
    words[6] = words::bits(linear.end);
    words[7] = words::count_word(banded.count);
    words[8] = words::count_word(categoric.count);
    words[9] = words::count_word(categoric.lookup_count);
    words
}

// ---- the arrays

#[tactic(auto, using(replay_rows::proofs::Stored::storing), unfolding(crate::specs::Records::float_words))]
fn float_words(floats: [f32; 64]) -> [u32; 64]
    ensures { result ≡ float_words floats }
{
    let mut words = [0u32; 64];
    for i in 0..64 {
        words[i] = words::bits(floats[i]);
    }
    words
}

#[tactic(auto, using(replay_rows::proofs::Stored::storing), unfolding(crate::specs::Records::key_words))]
fn key_words(keys: [i64; 256]) -> [u32; 256]
    ensures { result ≡ key_words keys }
{
    let mut words = [0u32; 256];
    for i in 0..256 {
        words[i] = words::low(keys[i]);
    }
    words
}

#[tactic(auto, unfolding(crate::specs::Records::with_bands))]
fn with_bands(row: [u32; 1680], banded: Banded) -> [u32; 1680]
    ensures { result ≡ with_bands banded row }
{
    let bands = banded.bands;
    let starts = float_words(banded_columns::starts_of(bands));
    let ends = float_words(banded_columns::ends_of(bands));
    let colors = banded_columns::colors_of(bands);
    let with_starts = part::put(row, place::ARRAYS, &starts);
    let with_ends = part::put(with_starts, place::ARRAYS + 64, &ends);
    part::put(with_ends, place::ARRAYS + 128, &colors)
}

#[tactic(auto, unfolding(crate::specs::Records::with_categories))]
fn with_categories(row: [u32; 1680], categoric: CategoricNumeric) -> [u32; 1680]
    ensures { result ≡ with_categories categoric row }
{
    let stored = categoric.keys;
    let keys = key_words(stored);
    let colors = categoric.colors;
    let table = categoric.lookup;
    let with_keys = part::put(row, place::ARRAYS, &keys);
    let with_colors = part::put(with_keys, place::ARRAYS + 256, &colors);
    part::put(with_colors, place::ARRAYS + 512, &table)
}

#[tactic(auto, unfolding(crate::specs::Records::with_record))]
pub fn with_record(row: [u32; 1680], legend: Legend) -> [u32; 1680]
    ensures { result ≡ with_record legend row }
{
    let words = head_words(legend);
    let with_head = part::put(row, place::RECORD, &words);
    let linear = legend.linear;
    let cmap = linear.cmap;
    let banded = legend.banded;
    let categoric = legend.categoric;
    let kind = legend.kind;
    match kind {
        LegendKind::Linear => part::put(with_head, place::ARRAYS, &cmap),
        LegendKind::Banded => with_bands(with_head, banded),
        LegendKind::CategoricNumeric => with_categories(with_head, categoric),
    }
}
