// The legends of the maps.
use crate::field::Field;
use crate::scale::Scale;
use colormapper::MappingConfig;
use legend::Legend;
use refusal::Refusal;

// Light grey.
const NODATA: u32 = 0xFFC8_C8C8;

// SPECTRAL's number. It has eleven colours, from red to blue.
const SPECTRAL: usize = 22;

// YL_GN_BU's number.
const YL_GN_BU: usize = 24;

fn settings(zero_is_nodata: bool) -> MappingConfig {
    MappingConfig {
        nodata_color: NODATA,
        out_of_range_low_color: None,
        out_of_range_high_color: None,
        zero_is_nodata,
    }
}

// SPECTRAL from blue to red.
fn cold_to_warm() -> [u32; 11] {
    let mut colors = [0u32; 11];
    for i in 0..11 {
        colors[i] = palettes::palette_color(SPECTRAL, 10 - i);
    }
    colors
}

pub fn temperature_linear() -> Result<Legend, Refusal> {
    let colors = cold_to_warm();
    legend_builders::create_linear(&colors, -10.0, 35.0, settings(false))
}

// Nine bands of five degrees.
pub fn temperature_banded() -> Result<Legend, Refusal> {
    let colors = cold_to_warm();
    let ramp = colormap::create(&colors)?;
    legend_builders::create_banded_from_ramp(9, &ramp.cmap, -10.0, 35.0, settings(false))
}

// A key for each whole millimetre.
pub fn rain_categoric() -> Result<Legend, Refusal> {
    let ramp = colormap::create_for_preset(YL_GN_BU)?;
    legend_builders::create_categoric_for_value_range_from_ramp(&ramp.cmap, 0, 40, settings(true))
}

// The numbers of a field's key: every fifth degree from -10 to 35, every fifth millimetre from 0 to 40.
pub fn scale(field: Field) -> Scale {
    match field {
        Field::Temperature => Scale {
            below: 10,
            steps: 9,
        },
        Field::Rain => Scale { below: 0, steps: 8 },
    }
}
