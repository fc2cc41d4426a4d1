// The builders for C and Rust (include/legend.h). The flags of the settings are looked at first; else what the kind's builder says (docs/RULES.md).
#![tactic(auto)]

ghost use Rattle.std.specs.Prelude.{◌≡◌};
ghost use Rattle.colormap.specs.Positions.{ramp_colors};
ghost use Rattle.linear.specs.Made.{linear_of_ramp, linear_of_list};
ghost use Rattle.banded.specs.EqualBands.{with_equal_bands};
ghost use Rattle.banded.specs.ManualRanges.{with_manual_ranges};
ghost use Rattle.banded.specs.Given.{with_bands_given};
ghost use Rattle.catgegoric.specs.Made.{for_values, for_values_from_ramp, for_value_range, for_value_range_from_ramp};
ghost use Rattle.legend_builders.specs.Building.{linear_with_settings, banded_with_settings, categoric_with_settings};
ghost use Rattle.c_types.specs.Settings.{settings_from_c};
ghost use Rattle.c_types.specs.Refusals.{settings_refusal};
ghost use Rattle.c_records.specs.Records.{made_to_c};

use banded::Banded;
use banded_columns::LegendBand;
use banded_lists::ValueRanges;
use c_records::record;
use c_records::record::LegendMade;
use c_types::settings::LegendSettings;
use c_types::{refusals, settings};
use colormap::ProcessedColorMap;
use refusal::Refusal;

pub fn legend_create_linear(
    colors: &[u32],
    start: f32,
    end: f32,
    settings: LegendSettings,
) -> LegendMade
    ensures { result ≡ made_to_c (settings_refusal settings) (linear_with_settings (linear_of_list start end colors.now) (settings_from_c settings)) }
{
    let config = settings::settings_from_c(settings);
    let made = legend_builders::create_linear(colors, start, end, config);
    record::made_to_c(refusals::settings_refusal(settings), made)
}

pub fn legend_create_linear_from_ramp(
    ramp: &[u32; 256],
    start: f32,
    end: f32,
    settings: LegendSettings,
) -> LegendMade
    ensures { result ≡ made_to_c (settings_refusal settings) (linear_with_settings (linear_of_ramp start end ramp.now) (settings_from_c settings)) }
{
    let map = ProcessedColorMap { cmap: *ramp };
    let config = settings::settings_from_c(settings);
    let made = legend_builders::create_linear_from_ramp(map, start, end, config);
    record::made_to_c(refusals::settings_refusal(settings), made)
}

pub fn legend_create_banded(
    count: usize,
    colors: &[u32],
    start: f32,
    end: f32,
    settings: LegendSettings,
) -> LegendMade
    ensures { result ≡ made_to_c (settings_refusal settings) (banded_with_settings (with_equal_bands count start end colors.now) (settings_from_c settings)) }
{
    let config = settings::settings_from_c(settings);
    let made = legend_builders::create_banded(count, colors, start, end, config);
    record::made_to_c(refusals::settings_refusal(settings), made)
}

pub fn legend_create_banded_from_ramp(
    count: usize,
    ramp: &[u32; 256],
    start: f32,
    end: f32,
    settings: LegendSettings,
) -> LegendMade
    ensures { result ≡ made_to_c (settings_refusal settings)
        (banded_with_settings (with_equal_bands count start end (ramp_colors count ramp.now)) (settings_from_c settings)) }
{
    let config = settings::settings_from_c(settings);
    let made = legend_builders::create_banded_from_ramp(count, ramp, start, end, config);
    record::made_to_c(refusals::settings_refusal(settings), made)
}

pub fn legend_create_banded_manual_ranges(
    colors: &[u32],
    ranges: ValueRanges,
    settings: LegendSettings,
) -> LegendMade
    ensures { result ≡ made_to_c (settings_refusal settings) (banded_with_settings (with_manual_ranges ranges colors.now) (settings_from_c settings)) }
{
    let config = settings::settings_from_c(settings);
    let made = legend_builders::create_banded_manual_ranges(colors, ranges, config);
    record::made_to_c(refusals::settings_refusal(settings), made)
}

pub fn legend_create_banded_manual_ranges_from_ramp(
    ramp: &[u32; 256],
    ranges: ValueRanges,
    settings: LegendSettings,
) -> LegendMade
    ensures { result ≡ made_to_c (settings_refusal settings)
        (banded_with_settings (with_manual_ranges ranges (ramp_colors ranges.count ramp.now)) (settings_from_c settings)) }
{
    let config = settings::settings_from_c(settings);
    let made = legend_builders::create_banded_manual_ranges_from_ramp(ramp, ranges, config);
    record::made_to_c(refusals::settings_refusal(settings), made)
}

// Bands as given: a lent list of structs.
pub fn legend_create_banded_as_given(bands: &[LegendBand], settings: LegendSettings) -> LegendMade
    ensures { result ≡ made_to_c (settings_refusal settings) (banded_with_settings (with_bands_given bands.now) (settings_from_c settings)) }
{
    bands_made(Banded::new(bands), settings)
}

fn bands_made(given: Result<Banded, Refusal>, settings: LegendSettings) -> LegendMade
    ensures { result ≡ made_to_c (settings_refusal settings) (banded_with_settings given (settings_from_c settings)) }
{
    let config = settings::settings_from_c(settings);
    let made = legend_builders::banded_with_settings(given, config);
    record::made_to_c(refusals::settings_refusal(settings), made)
}

pub fn legend_create_categoric_for_value_list(
    colors: &[u32],
    values: &[i64],
    settings: LegendSettings,
) -> LegendMade
    ensures { result ≡ made_to_c (settings_refusal settings)
        (categoric_with_settings (for_values values.now colors.now) (settings_from_c settings)) }
{
    let config = settings::settings_from_c(settings);
    let made = legend_builders::create_categoric_for_value_list(colors, values, config);
    record::made_to_c(refusals::settings_refusal(settings), made)
}

pub fn legend_create_categoric_for_value_list_from_ramp(
    ramp: &[u32; 256],
    values: &[i64],
    settings: LegendSettings,
) -> LegendMade
    ensures { result ≡ made_to_c (settings_refusal settings)
        (categoric_with_settings (for_values_from_ramp values.now ramp.now) (settings_from_c settings)) }
{
    let config = settings::settings_from_c(settings);
    let made = legend_builders::create_categoric_for_value_list_from_ramp(ramp, values, config);
    record::made_to_c(refusals::settings_refusal(settings), made)
}

pub fn legend_create_categoric_for_value_range(
    colors: &[u32],
    start: i64,
    end: i64,
    settings: LegendSettings,
) -> LegendMade
    ensures { result ≡ made_to_c (settings_refusal settings) (categoric_with_settings (for_value_range start end colors.now) (settings_from_c settings)) }
{
    let config = settings::settings_from_c(settings);
    let made = legend_builders::create_categoric_for_value_range(colors, start, end, config);
    record::made_to_c(refusals::settings_refusal(settings), made)
}

pub fn legend_create_categoric_for_value_range_from_ramp(
    ramp: &[u32; 256],
    start: i64,
    end: i64,
    settings: LegendSettings,
) -> LegendMade
    ensures { result ≡ made_to_c (settings_refusal settings)
        (categoric_with_settings (for_value_range_from_ramp start end ramp.now) (settings_from_c settings)) }
{
    let config = settings::settings_from_c(settings);
    let made = legend_builders::create_categoric_for_value_range_from_ramp(
        ramp, start, end, config,
    );
    record::made_to_c(refusals::settings_refusal(settings), made)
}
