// The linear legend: a range of values over a ramp, its builders, and its colours out of range (docs/RULES.md, "Linear").
#![tactic(auto)]

ghost use Rattle.std.specs.Prelude.{◌≡◌};
ghost use Rattle.linear.specs.Made.{empty_linear, range_refusal, linear_of_ramp, linear_of_list, linear_colors};

use colormap::ProcessedColorMap;
use colormapper::{MappingConfig, UnmappableColors};
use refusal::Refusal;

// A range of values and the ramp that it is coloured by.
#[repr(C)]
#[derive(Clone, Copy)]
pub struct Linear {
    pub start: f32,
    pub end: f32,
    pub cmap: [u32; 256],
}

impl Linear {
    // How far out of the range a sample is still looked up.
    pub const EDGE_TOLERANCE: f32 = 1e-4;

    // No range, and a ramp that is TRANSPARENT throughout.
    pub fn default() -> Linear
        ensures { result ≡ empty_linear }
    {
        Linear {
            start: 0.0,
            end: 0.0,
            cmap: [0u32; 256],
        }
    }

    // A range over a ramp.
    #[tactic(auto, unfolding(crate::specs::Made::linear_unless))]
    pub fn new(start: f32, end: f32, color_map: ProcessedColorMap) -> Result<Linear, Refusal>
        ensures { result ≡ linear_of_ramp start end color_map.cmap }
    {
        range_refusal(start, end)?;
        let cmap = color_map.cmap;
        Ok(Linear { start, end, cmap })
    }

    // A range over a list of colours. The ramp is made before the range is tested.
    #[tactic(auto, using(crate::proofs::Building::list_refused, crate::proofs::Building::list_made))]
    pub fn with_color_list(start: f32, end: f32, colors: &[u32]) -> Result<Linear, Refusal>
        ensures { result ≡ linear_of_list start end colors.now }
    {
        let ramp = colormap::create(colors)?;
        Linear::new(start, end, ramp)
    }
}

pub fn range_refusal(start: f32, end: f32) -> Result<(), Refusal>
    ensures { result ≡ range_refusal start end }
{
    if start > end {
        return Err(Refusal::StartAboveEnd);
    }
    Ok(())
}

// The settings' colours, the ramp's ends where low or high is absent.
pub fn unmappable_colors(cmap: &[u32; 256], config: MappingConfig) -> UnmappableColors
    ensures { result ≡ linear_colors cmap.now config }
{
    let low = lookup::get_color(cmap, 0.0);
    let high = lookup::get_color(cmap, 1.0);
    colormapper::compute_unmappable_colors(config, low, high)
}
