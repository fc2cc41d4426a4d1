// The values on a card that is not refused: settings, and the record of its kind.
ghost use Rattle.std.specs.Prelude.{◌≡◌, true, ◌+◌, ◌*◌, ◌≤◌, pos, length, drop};
ghost use Rattle.lists.specs.Padded.{padded};
ghost use Rattle.banded.specs.Record.{banded_of};
ghost use Rattle.banded_lists.specs.Padded.{padded_bands};
ghost use Rattle.categoric_build.specs.Categories.{keys_of, colors_of};
ghost use Rattle.catgegoric.specs.Made.{record_of};
ghost use Rattle.card_bytes.specs.Numbers.{number_at};
ghost use Rattle.card_bytes.specs.Entries.{entries_in};
ghost use Rattle.card_layout.specs.Settings.{settings_in};
ghost use Rattle.card_layout.specs.Entries.{linear_in, band_in, category_in};
ghost use Rattle.card_layout.specs.Cards.{legend_in};
ghost use Rattle.card_layout.specs.Refusals.{well_formed};

use crate::parts;
use banded::Banded;
use banded_columns::LegendBand;
use card_bytes::{u8_at, u16_at, u32_at, u64_at};
use catgegoric::CategoricNumeric;
use colormapper::MappingConfig;
use legend::{Legend, LegendKind};
use linear::Linear;

#[tactic(auto, using(crate::proofs::Told::telling))]
pub fn legend_in(card: &[u8]) -> Legend
    requires { well_formed card.now ≡ true }
    ensures { result ≡ legend_in card.now }
{
    let rest = parts::after_title(card);
    let config = settings_in(rest);
    let kind = LegendKind::from_number(u8_at(card, 5) as u32);
    let count = u16_at(rest, 13) as usize;
    let entries = &rest[15..];
    match kind {
        LegendKind::Linear => Legend::with_linear(linear_in(entries), config),
        LegendKind::Banded => Legend::with_banded(banded_in(entries, count), config),
        LegendKind::CategoricNumeric => {
            Legend::with_categoric(categoric_in(entries, count), config)
        }
    }
}

#[tactic(auto, unfolding(card_layout::specs::Settings::settings_in))]
fn settings_in(rest: &[u8]) -> MappingConfig
    requires { 15 ≤ length rest.now }
    ensures { result ≡ settings_in (number_at 0 4 rest.now) (number_at 4 1 rest.now)
        (number_at 5 4 rest.now) (number_at 9 4 rest.now) }
{
    // The flags are bits of a byte by the card's layout.
    let flags = u8_at(rest, 4) as u32;
    MappingConfig {
        nodata_color: u32_at(rest, 0),
        out_of_range_low_color: colormapper::color_if(flags % 2, u32_at(rest, 5)),
        out_of_range_high_color: colormapper::color_if(flags / 2 % 2, u32_at(rest, 9)),
        zero_is_nodata: flags / 4 % 2 == 1,
    }
}

// ---- linear

#[tactic(auto, using(crate::proofs::Found::from_on), unfolding(card_layout::specs::Entries::linear_in))]
fn linear_in(entries: &[u8]) -> Linear
    requires { length entries.now ≡ 1032 }
    ensures { result ≡ linear_in entries.now }
{
    Linear {
        start: words::float(u32_at(entries, 0)),
        end: words::float(u32_at(entries, 4)),
        cmap: ramp_in(&entries[8..]),
    }
}

#[tactic(auto, using(crate::proofs::Storing::storing_entries))]
fn ramp_in(colors: &[u8]) -> [u32; 256]
    requires { length colors.now ≡ 1024 }
    ensures { result ≡ entries_in 4 256 (number_at 0 4) colors.now }
{
    let mut ramp = [0u32; 256];
    for i in 0..256 {
        ramp[i] = u32_at(colors, 4 * i);
    }
    ramp
}

// ---- banded: a record's arrays have fixed places, as nothing is allocated, and those behind the count are blank

#[tactic(auto, using(crate::proofs::Entries::counted_entries), unfolding(banded::specs::Record::banded_of))]
fn banded_in(entries: &[u8], count: usize) -> Banded
    requires { (count ≤ 64) × (length entries.now ≡ 12 * count) }
    ensures { result ≡ banded_of (entries_in 12 count band_in entries.now) }
{
    Banded {
        bands: bands_in(entries, count),
        count,
    }
}

#[tactic(auto, using(crate::proofs::Storing::storing_entries))]
fn bands_in(entries: &[u8], count: usize) -> [LegendBand; 64]
    requires { (count ≤ 64) × (length entries.now ≡ 12 * count) }
    ensures { result ≡ padded_bands (entries_in 12 count band_in entries.now) }
{
    let mut bands = banded_lists::no_bands();
    for i in 0..count {
        bands[i] = band_at(entries, 12 * i);
    }
    bands
}

#[tactic(auto, using(crate::proofs::Entries::places), unfolding(card_layout::specs::Entries::band_in))]
fn band_at(entries: &[u8], at: usize) -> LegendBand
    requires { at + 12 ≤ length entries.now }
    ensures { result ≡ band_in (drop at entries.now) }
{
    LegendBand {
        start: words::float(u32_at(entries, at)),
        end: words::float(u32_at(entries, at + 4)),
        color: u32_at(entries, at + 8),
    }
}

// ---- categoric

fn categoric_in(entries: &[u8], count: usize) -> CategoricNumeric
    requires { (count ≤ 256) × (length entries.now ≡ 12 * count) }
    ensures { result ≡ record_of (entries_in 12 count category_in entries.now) }
{
    let keys = keys_in(entries, count);
    let colors = colors_in(entries, count);
    catgegoric::with_lookup(keys, colors, count)
}

#[tactic(auto, using(crate::proofs::Storing::storing_fields), unfolding(card_layout::specs::Entries::category_in))]
pub fn keys_in(entries: &[u8], count: usize) -> [i64; 256]
    requires { (count ≤ 256) × (length entries.now ≡ 12 * count) }
    ensures { result ≡ padded (pos 0) 256 (keys_of (entries_in 12 count category_in entries.now)) }
{
    let mut keys = [0i64; 256];
    for i in 0..count {
        keys[i] = words::signed(u64_at(entries, 12 * i));
    }
    keys
}

#[tactic(auto, using(crate::proofs::Storing::storing_fields), unfolding(card_layout::specs::Entries::category_in))]
fn colors_in(entries: &[u8], count: usize) -> [u32; 256]
    requires { (count ≤ 256) × (length entries.now ≡ 12 * count) }
    ensures { result ≡ padded 0 256 (colors_of (entries_in 12 count category_in entries.now)) }
{
    let mut colors = [0u32; 256];
    for i in 0..count {
        colors[i] = u32_at(entries, 12 * i + 8);
    }
    colors
}
