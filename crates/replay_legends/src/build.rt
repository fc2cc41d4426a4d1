// The builder that a row names, with what the row gives it; and records that no builder made.
ghost use Rattle.std.specs.Prelude.{◌≡◌};
ghost use Rattle.replay_legends.specs.Asked.{optional_of, row_settings, ramp_of, cmap_of, linear_of, equal_bands_of, manual_ranges_of, categories_of};
ghost use Rattle.replay_legends.specs.Asked.{category_range_of, bands_given, linear_stored, categories_stored, row_legend};

use crate::list;
use banded::Banded;
use banded_columns::LegendBand;
use catgegoric::CategoricNumeric;
use colormap::ProcessedColorMap;
use colormapper::MappingConfig;
use legend::Legend;
use linear::Linear;
use refusal::Refusal;
use replay_rows::kind::RowKind;
use replay_rows::{part, place};

// ---- settings and colours

fn optional(given: bool, color: u32) -> Option<u32>
    ensures { result ≡ optional_of given color }
{
    if given { Some(color) } else { None }
}

pub fn settings(row: &[u32; 1680]) -> MappingConfig
    ensures { result ≡ row_settings row.now }
{
    let flags = row[place::FLAGS];
    MappingConfig {
        nodata_color: row[place::NODATA_COLOR],
        out_of_range_low_color: optional(flags % 2 == 1, row[place::LOW]),
        out_of_range_high_color: optional(flags / 2 % 2 == 1, row[place::HIGH]),
        zero_is_nodata: flags / 4 % 2 == 1,
    }
}

// The ramp of the row's palette or of its list.
pub fn ramp(row: &[u32; 1680]) -> Result<ProcessedColorMap, Refusal>
    ensures { result ≡ ramp_of row.now }
{
    if row[place::SOURCE] < place::FROM_LIST {
        return colormap::create_for_preset(words::wide(row[place::SOURCE]));
    }
    let list = part::words_at(row, place::COLORS);
    let count = words::at_most(row[place::LIST_COUNT], 16);
    colormap::create(&list[..count])
}

// The ramp of the row's palette; where the palette is refused it is TRANSPARENT throughout.
fn palette_ramp(row: &[u32; 1680]) -> ProcessedColorMap
    ensures { result.cmap ≡ cmap_of row.now }
{
    colormap::create_for_preset(words::wide(row[place::SOURCE])).unwrap_or(
        ProcessedColorMap::default(),
    )
}

// ---- by a builder

fn linear(row: &[u32; 1680], config: MappingConfig) -> Result<Legend, Refusal>
    ensures { result ≡ linear_of row.now config }
{
    let start = words::float(row[place::NUMBERS]);
    let end = words::float(row[place::NUMBERS + 1]);
    if row[place::SOURCE] < place::FROM_LIST {
        return legend_builders::create_linear_from_ramp(palette_ramp(row), start, end, config);
    }
    let list = part::words_at(row, place::COLORS);
    let count = words::at_most(row[place::LIST_COUNT], 16);
    legend_builders::create_linear(&list[..count], start, end, config)
}

fn equal_bands(row: &[u32; 1680], config: MappingConfig) -> Result<Legend, Refusal>
    ensures { result ≡ equal_bands_of row.now config }
{
    let start = words::float(row[place::NUMBERS]);
    let end = words::float(row[place::NUMBERS + 1]);
    let bands = words::wide(row[place::COUNT]);
    if row[place::SOURCE] < place::FROM_LIST {
        let ramp = palette_ramp(row);
        return legend_builders::create_banded_from_ramp(bands, &ramp.cmap, start, end, config);
    }
    let list = part::words_at(row, place::COLORS);
    let count = words::at_most(row[place::LIST_COUNT], 16);
    legend_builders::create_banded(bands, &list[..count], start, end, config)
}

fn manual_ranges(row: &[u32; 1680], config: MappingConfig) -> Result<Legend, Refusal>
    ensures { result ≡ manual_ranges_of row.now config }
{
    let values = list::ranges(row);
    if row[place::SOURCE] < place::FROM_LIST {
        let ramp = palette_ramp(row);
        return legend_builders::create_banded_manual_ranges_from_ramp(&ramp.cmap, values, config);
    }
    let list = part::words_at(row, place::COLORS);
    let count = words::at_most(row[place::LIST_COUNT], 16);
    legend_builders::create_banded_manual_ranges(&list[..count], values, config)
}

fn categories(row: &[u32; 1680], config: MappingConfig) -> Result<Legend, Refusal>
    ensures { result ≡ categories_of row.now config }
{
    let keys = part::keys(row);
    let key_count = words::at_most(row[place::COUNT], 16);
    if row[place::SOURCE] < place::FROM_LIST {
        let ramp = palette_ramp(row);
        return legend_builders::create_categoric_for_value_list_from_ramp(
            &ramp.cmap,
            &keys[..key_count],
            config,
        );
    }
    let list = part::words_at(row, place::COLORS);
    let count = words::at_most(row[place::LIST_COUNT], 16);
    legend_builders::create_categoric_for_value_list(&list[..count], &keys[..key_count], config)
}

fn category_range(row: &[u32; 1680], config: MappingConfig) -> Result<Legend, Refusal>
    ensures { result ≡ category_range_of row.now config }
{
    let start = words::key(row[place::NUMBERS]);
    let end = words::key(row[place::NUMBERS + 1]);
    if row[place::SOURCE] < place::FROM_LIST {
        let ramp = palette_ramp(row);
        return legend_builders::create_categoric_for_value_range_from_ramp(
            &ramp.cmap, start, end, config,
        );
    }
    let list = part::words_at(row, place::COLORS);
    let count = words::at_most(row[place::LIST_COUNT], 16);
    legend_builders::create_categoric_for_value_range(&list[..count], start, end, config)
}

// ---- records that no builder made

// Bands as given.
fn bands_given(row: &[u32; 1680], config: MappingConfig) -> Legend
    ensures { result ≡ bands_given row.now config }
{
    let bands = list::bands(row);
    let count = words::at_most(row[place::COUNT], 16);
    Legend::with_banded(Banded { bands, count }, config)
}

// The start may be above the end.
fn linear_stored(row: &[u32; 1680], config: MappingConfig) -> Legend
    ensures { result ≡ linear_stored row.now config }
{
    let ramp = palette_ramp(row);
    let cmap = ramp.cmap;
    let start = words::float(row[place::NUMBERS]);
    let end = words::float(row[place::NUMBERS + 1]);
    Legend::with_linear(Linear { start, end, cmap }, config)
}

// Keys in any order, with any table.
fn categories_stored(row: &[u32; 1680], config: MappingConfig) -> Legend
    ensures { result ≡ categories_stored row.now config }
{
    let keys = list::keys(row);
    let colors = list::colors(row);
    let lookup = list::table(row);
    let categoric = CategoricNumeric {
        keys,
        colors,
        count: words::at_most(row[place::COUNT], 16),
        lookup,
        lookup_count: words::at_most(row[place::TABLE_COUNT], 16),
    };
    Legend::with_categoric(categoric, config)
}

// ---- the legend of a row, by its kind

#[tactic(auto, unfolding(crate::specs::Asked::row_legend))]
pub fn made(row: &[u32; 1680]) -> Result<Legend, Refusal>
    ensures { result ≡ row_legend row.now }
{
    let config = settings(row);
    match RowKind::from_word(row[place::KIND]) {
        Some(RowKind::Linear) => linear(row, config),
        Some(RowKind::EqualBands) => equal_bands(row, config),
        Some(RowKind::ManualRanges) => manual_ranges(row, config),
        Some(RowKind::BandsGiven) => Ok(bands_given(row, config)),
        Some(RowKind::CategoriesByValues) => categories(row, config),
        Some(RowKind::CategoriesByRange) => category_range(row, config),
        Some(RowKind::LinearStored) => Ok(linear_stored(row, config)),
        _ => Ok(categories_stored(row, config)),
    }
}
