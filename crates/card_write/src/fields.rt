// The fields of a card, laid over a buffer one after the other. What has not been refused fits.
ghost use Rattle.std.specs.Prelude.{◌≡◌, ◌+◌, ◌*◌, ◌≤◌, length};
ghost use Rattle.refusal.specs.Outcome.{Done};
ghost use Rattle.categoric_build.specs.Categories.{category};
ghost use Rattle.legend.specs.Record.{stored_refusal};
ghost use Rattle.card_bytes.specs.Numbers.{bytes_of, overwritten};
ghost use Rattle.card_bytes.specs.Entries.{entries_of};
ghost use Rattle.card_layout.specs.Settings.{flags_of};
ghost use Rattle.card_layout.specs.Entries.{linear_bytes, band_bytes, category_bytes};
ghost use Rattle.card_layout.specs.Cards.{count_in, entries_from, card_of};
ghost use Rattle.card_write.specs.forms.Length.{entries_length, card_length};
ghost use Rattle.card_write.specs.forms.Parts.{head_bytes, settings_bytes, paired};

use banded_columns::LegendBand;
use card_bytes::{put_all, put_u8, put_u16, put_u32, put_u64};
use colormapper::MappingConfig;
use legend::{Legend, LegendKind};
use linear::Linear;

// All of them; how many bytes they are.
#[tactic(auto, using(crate::proofs::Lengths::laying_card), unfolding(crate::specs::forms::Length::card_length))]
pub fn put_fields(legend: Legend, title: &[u8], buffer: &mut [u8]) -> usize
    requires { (stored_refusal legend ≡ Done) × (length title.now ≤ 255) × (card_length (length title.now) legend ≤ length buffer.old) }
    ensures { (result ≡ length (card_of title.now legend))
        × (buffer.new ≡ overwritten 0 (card_of title.now legend) buffer.old) }
{
    put_head(legend.kind.number(), title, buffer);
    let after = 7 + title.len();
    put_settings(legend.mapping_config, entry_count(legend), buffer, after);
    let entries = after + 15;
    put_entries(legend, buffer, entries);
    entries + crate::refusals::entries_length(legend)
}

// ---- what stands before the entries

#[tactic(auto, using(crate::proofs::Putting::mark_bytes, crate::proofs::Putting::laying), unfolding(crate::specs::forms::Parts::head_bytes))]
fn put_head(kind: u32, title: &[u8], buffer: &mut [u8])
    requires { (length title.now ≤ 255) × (7 + length title.now ≤ length buffer.old) }
    ensures { buffer.new ≡ overwritten 0 (head_bytes kind title.now) buffer.old }
{
    put_all(buffer, 0, b"LGC");
    put_u16(buffer, 3, 1);
    put_u8(buffer, 5, kind);
    put_u8(buffer, 6, title.len() as u32);
    put_all(buffer, 7, title);
}

#[tactic(auto, using(crate::proofs::Putting::laying), unfolding(crate::specs::forms::Parts::settings_bytes))]
fn put_settings(config: MappingConfig, count: u32, buffer: &mut [u8], at: usize)
    requires { at + 15 ≤ length buffer.old }
    ensures { buffer.new ≡ overwritten at (settings_bytes config count) buffer.old }
{
    put_u32(buffer, at, config.nodata_color);
    put_u8(buffer, at + 4, flags_of(config));
    put_u32(buffer, at + 5, config.out_of_range_low_color.unwrap_or(0));
    put_u32(buffer, at + 9, config.out_of_range_high_color.unwrap_or(0));
    put_u16(buffer, at + 13, count);
}

#[tactic(auto, unfolding(card_layout::specs::Settings::flags_of))]
fn flags_of(config: MappingConfig) -> u32
    ensures { result ≡ flags_of config }
{
    colormapper::given_flag(config.out_of_range_low_color)
        + 2 * colormapper::given_flag(config.out_of_range_high_color)
        + 4 * colormapper::flag_of(config.zero_is_nodata)
}

#[tactic(auto, using(crate::proofs::Lengths::stored_counts))]
fn entry_count(legend: Legend) -> u32
    requires { stored_refusal legend ≡ Done }
    ensures { result ≡ count_in legend.kind legend }
{
    match legend.kind {
        LegendKind::Linear => 256,
        LegendKind::Banded => legend.banded.count as u32,
        LegendKind::CategoricNumeric => legend.categoric.count as u32,
    }
}

// ---- the entries, by kind

#[tactic(auto, using(crate::proofs::Pairing::stored_entries), unfolding(crate::specs::forms::Length::entries_length))]
fn put_entries(legend: Legend, buffer: &mut [u8], at: usize)
    requires { (stored_refusal legend ≡ Done) × (at + entries_length legend ≤ length buffer.old) }
    ensures { buffer.new ≡ overwritten at (entries_from legend.kind legend) buffer.old }
{
    // What is lent is a part of its own: lent in the legend, it would have the whole copied for every kind.
    match legend.kind {
        LegendKind::Linear => put_linear(legend.linear, buffer, at),
        LegendKind::Banded => {
            let bands = legend.banded.bands;
            put_bands(&bands[..legend.banded.count], buffer, at);
        }
        LegendKind::CategoricNumeric => {
            let count = legend.categoric.count;
            let keys = legend.categoric.keys;
            let colors = legend.categoric.colors;
            put_categories(&keys[..count], &colors[..count], buffer, at);
        }
    }
}

#[tactic(auto, using(crate::proofs::Putting::laying), unfolding(card_layout::specs::Entries::linear_bytes))]
fn put_linear(linear: Linear, buffer: &mut [u8], at: usize)
    requires { at + 1032 ≤ length buffer.old }
    ensures { buffer.new ≡ overwritten at (linear_bytes linear) buffer.old }
{
    put_u32(buffer, at, words::bits(linear.start));
    put_u32(buffer, at + 4, words::bits(linear.end));
    let cmap = linear.cmap;
    put_colors(&cmap, buffer, at + 8);
}

#[tactic(auto, using(crate::proofs::Putting::laying_entries))]
fn put_colors(colors: &[u32], buffer: &mut [u8], at: usize)
    requires { at + 4 * length colors.now ≤ length buffer.old }
    ensures { buffer.new ≡ overwritten at (entries_of (bytes_of 4) colors.now) buffer.old }
{
    for (i, color) in colors.iter().enumerate() {
        put_u32(buffer, at + 4 * i, *color);
    }
}

#[tactic(auto, using(crate::proofs::Putting::laying_entries))]
fn put_bands(bands: &[LegendBand], buffer: &mut [u8], at: usize)
    requires { at + 12 * length bands.now ≤ length buffer.old }
    ensures { buffer.new ≡ overwritten at (entries_of band_bytes bands.now) buffer.old }
{
    for (i, band) in bands.iter().enumerate() {
        put_band(*band, buffer, at + 12 * i);
    }
}

#[tactic(auto, using(crate::proofs::Putting::laying), unfolding(card_layout::specs::Entries::band_bytes))]
fn put_band(band: LegendBand, buffer: &mut [u8], at: usize)
    requires { at + 12 ≤ length buffer.old }
    ensures { buffer.new ≡ overwritten at (band_bytes band) buffer.old }
{
    put_u32(buffer, at, words::bits(band.start));
    put_u32(buffer, at + 4, words::bits(band.end));
    put_u32(buffer, at + 8, band.color);
}

#[tactic(auto, using(crate::proofs::Pairing::laying_categories))]
fn put_categories(keys: &[i64], colors: &[u32], buffer: &mut [u8], at: usize)
    requires { (length keys.now ≡ length colors.now) × (at + 12 * length keys.now ≤ length buffer.old) }
    ensures { buffer.new ≡ overwritten at
        (entries_of category_bytes (paired keys.now colors.now)) buffer.old }
{
    for i in 0..keys.len() {
        put_category(keys[i], colors[i], buffer, at + 12 * i);
    }
}

#[tactic(auto, using(crate::proofs::Putting::laying, categoric_lists::proofs::Numbers::back), unfolding(card_layout::specs::Entries::category_bytes))]
fn put_category(key: i64, color: u32, buffer: &mut [u8], at: usize)
    requires { at + 12 ≤ length buffer.old }
    ensures { buffer.new ≡ overwritten at (category_bytes (category key color)) buffer.old }
{
    put_u64(buffer, at, words::unsigned(key));
    put_u32(buffer, at + 8, color);
}
