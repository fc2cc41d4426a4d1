// Ramps, and looking a fraction up in one.
ghost use Rattle.std.specs.Prelude.{◌≡◌};
ghost use Rattle.colormap.specs.Made.{ramp_of_list, ramp_of_preset};
ghost use Rattle.lookup.specs.Entries.{plain_entry, lane_entry, entry_color};
ghost use Rattle.c_answers.specs.Ramps.{ramp_to_c};

use c_answers::ramps;
use c_answers::ramps::LegendRamp;

// A list of colours spread over a ramp.
pub fn legend_ramp_from_list(colors: &[u32]) -> LegendRamp
    ensures { result ≡ ramp_to_c (ramp_of_list colors.now) }
{
    ramps::ramp_to_c(colormap::create(colors))
}

// A palette spread over a ramp.
pub fn legend_ramp_from_palette(number: usize) -> LegendRamp
    ensures { result ≡ ramp_to_c (ramp_of_preset number) }
{
    ramps::ramp_to_c(colormap::create_for_preset(number))
}

// The colour of a fraction. The ramp is lent: by value it would be copied at each call.
pub fn legend_get_color(ramp: &[u32; 256], fraction: f32) -> u32
    ensures { result ≡ entry_color ramp.now (plain_entry fraction) }
{
    lookup::get_color(ramp, fraction)
}

// The colour of a fraction by the rule of the lanes: one lane of the look-up that the painters use.
pub fn legend_get_color_simd(ramp: &[u32; 256], fraction: f32) -> u32
    ensures { result ≡ entry_color ramp.now (lane_entry fraction) }
{
    let colors = lookup::get_color_simd(1, ramp, [fraction; 16]);
    colors[0]
}
