// Settings as C passes them.
ghost use Rattle.std.specs.Prelude.{◌≡◌};
ghost use Rattle.c_types.specs.Settings.{settings_from_c, settings_to_c};

use colormapper::MappingConfig;

// The last three are flags, 0 or 1. The low colour counts where `has_low` is 1, the high colour where `has_high` is.
#[repr(C)]
#[derive(Clone, Copy)]
pub struct LegendSettings {
    pub nodata_color: u32,
    pub low_color: u32,
    pub high_color: u32,
    pub has_low: u32,
    pub has_high: u32,
    pub zero_is_nodata: u32,
}

#[tactic(auto, unfolding(crate::specs::Settings::settings_from_c))]
pub fn settings_from_c(settings: LegendSettings) -> MappingConfig
    ensures { result ≡ settings_from_c settings }
{
    MappingConfig {
        nodata_color: settings.nodata_color,
        out_of_range_low_color: colormapper::color_if(settings.has_low, settings.low_color),
        out_of_range_high_color: colormapper::color_if(settings.has_high, settings.high_color),
        zero_is_nodata: settings.zero_is_nodata == 1,
    }
}

// The other way: the colour 0 where none is given.
#[tactic(auto, unfolding(crate::specs::Settings::settings_to_c))]
pub fn settings_to_c(config: MappingConfig) -> LegendSettings
    ensures { result ≡ settings_to_c config }
{
    let low = config.out_of_range_low_color;
    let high = config.out_of_range_high_color;
    LegendSettings {
        nodata_color: config.nodata_color,
        low_color: low.unwrap_or(0),
        high_color: high.unwrap_or(0),
        has_low: colormapper::given_flag(low),
        has_high: colormapper::given_flag(high),
        zero_is_nodata: colormapper::flag_of(config.zero_is_nodata),
    }
}
