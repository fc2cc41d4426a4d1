// The builders of legends: a kind's builder and the settings (docs/RULES.md).
#![tactic(auto)]

ghost use Rattle.std.specs.Prelude.{◌≡◌};
ghost use Rattle.colormap.specs.Positions.{ramp_colors};
ghost use Rattle.linear.specs.Made.{linear_of_ramp, linear_of_list};
ghost use Rattle.banded.specs.EqualBands.{with_equal_bands};
ghost use Rattle.banded.specs.ManualRanges.{with_manual_ranges};
ghost use Rattle.catgegoric.specs.Made.{for_values, for_values_from_ramp, for_value_range, for_value_range_from_ramp};
ghost use Rattle.legend_builders.specs.Building.{linear_with_settings, banded_with_settings, categoric_with_settings};

use banded::Banded;
use banded_lists::ValueRanges;
use catgegoric::CategoricNumeric;
use colormap::ProcessedColorMap;
use colormapper::MappingConfig;
use legend::Legend;
use linear::Linear;
use refusal::Refusal;

// ---- from what a kind's builder made

#[tactic(auto, unfolding(crate::specs::Building::linear_with_settings))]
fn linear_with_settings(
    made: Result<Linear, Refusal>,
    config: MappingConfig,
) -> Result<Legend, Refusal>
    ensures { result ≡ linear_with_settings made config }
{
    let linear = made?;
    Ok(Legend::with_linear(linear, config))
}

#[tactic(auto, unfolding(crate::specs::Building::banded_with_settings))]
pub fn banded_with_settings(
    made: Result<Banded, Refusal>,
    config: MappingConfig,
) -> Result<Legend, Refusal>
    ensures { result ≡ banded_with_settings made config }
{
    let banded = made?;
    Ok(Legend::with_banded(banded, config))
}

#[tactic(auto, unfolding(crate::specs::Building::categoric_with_settings))]
fn categoric_with_settings(
    made: Result<CategoricNumeric, Refusal>,
    config: MappingConfig,
) -> Result<Legend, Refusal>
    ensures { result ≡ categoric_with_settings made config }
{
    let categoric = made?;
    Ok(Legend::with_categoric(categoric, config))
}

// ---- the builders. Colours come as a list or, by the names that say so, as a ramp.
// Two functions each, as in the Rust: a ramp cannot be refused for its count of colours (9), and its colours are made only after the refusals.

pub fn create_linear(
    colors: &[u32],
    start: f32,
    end: f32,
    config: MappingConfig,
) -> Result<Legend, Refusal>
    ensures { result ≡ linear_with_settings (linear_of_list start end colors.now) config }
{
    linear_with_settings(Linear::with_color_list(start, end, colors), config)
}

pub fn create_linear_from_ramp(
    ramp: ProcessedColorMap,
    start: f32,
    end: f32,
    config: MappingConfig,
) -> Result<Legend, Refusal>
    ensures { result ≡ linear_with_settings (linear_of_ramp start end ramp.cmap) config }
{
    linear_with_settings(Linear::new(start, end, ramp), config)
}

pub fn create_banded(
    count: usize,
    colors: &[u32],
    start: f32,
    end: f32,
    config: MappingConfig,
) -> Result<Legend, Refusal>
    ensures { result ≡ banded_with_settings (with_equal_bands count start end colors.now) config }
{
    banded_with_settings(Banded::with_equal_bands(count, start, end, colors), config)
}

pub fn create_banded_from_ramp(
    count: usize,
    cmap: &[u32; 256],
    start: f32,
    end: f32,
    config: MappingConfig,
) -> Result<Legend, Refusal>
    ensures { result ≡ banded_with_settings (with_equal_bands count start end (ramp_colors count cmap.now)) config }
{
    banded_with_settings(
        Banded::with_equal_bands_from_ramp(count, start, end, cmap),
        config,
    )
}

pub fn create_banded_manual_ranges(
    colors: &[u32],
    values: ValueRanges,
    config: MappingConfig,
) -> Result<Legend, Refusal>
    ensures { result ≡ banded_with_settings (with_manual_ranges values colors.now) config }
{
    banded_with_settings(Banded::with_manual_ranges(values, colors), config)
}

pub fn create_banded_manual_ranges_from_ramp(
    cmap: &[u32; 256],
    values: ValueRanges,
    config: MappingConfig,
) -> Result<Legend, Refusal>
    ensures { result ≡ banded_with_settings (with_manual_ranges values (ramp_colors values.count cmap.now)) config }
{
    banded_with_settings(Banded::with_manual_ranges_from_ramp(values, cmap), config)
}

pub fn create_categoric_for_value_list(
    colors: &[u32],
    values: &[i64],
    config: MappingConfig,
) -> Result<Legend, Refusal>
    ensures { result ≡ categoric_with_settings (for_values values.now colors.now) config }
{
    categoric_with_settings(CategoricNumeric::for_values(values, colors), config)
}

pub fn create_categoric_for_value_list_from_ramp(
    cmap: &[u32; 256],
    values: &[i64],
    config: MappingConfig,
) -> Result<Legend, Refusal>
    ensures { result ≡ categoric_with_settings (for_values_from_ramp values.now cmap.now) config }
{
    categoric_with_settings(CategoricNumeric::for_values_from_ramp(values, cmap), config)
}

pub fn create_categoric_for_value_range(
    colors: &[u32],
    start: i64,
    end: i64,
    config: MappingConfig,
) -> Result<Legend, Refusal>
    ensures { result ≡ categoric_with_settings (for_value_range start end colors.now) config }
{
    categoric_with_settings(
        CategoricNumeric::for_value_range(start, end, colors),
        config,
    )
}

pub fn create_categoric_for_value_range_from_ramp(
    cmap: &[u32; 256],
    start: i64,
    end: i64,
    config: MappingConfig,
) -> Result<Legend, Refusal>
    ensures { result ≡ categoric_with_settings (for_value_range_from_ramp start end cmap.now) config }
{
    categoric_with_settings(
        CategoricNumeric::for_value_range_from_ramp(start, end, cmap),
        config,
    )
}
