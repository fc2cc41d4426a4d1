// The colour of one sample by a legend whose arrays are borrowed (docs/RULES.md, "Samples and settings").
#![tactic(auto)]

ghost use Rattle.std.specs.Prelude.{◌≡◌};
ghost use Rattle.refusal.specs.Outcome.{Done};
ghost use Rattle.legend.specs.Record.{stored_refusal};
ghost use Rattle.legend.specs.Painters.{painter};
ghost use Rattle.legend_view.specs.Borrowed.{borrowed_legend};
ghost use Rattle.legend_pixel.specs.Values.{color_for_value};

use legend_view::View;
use refusal::Refusal;

// The colour of a sample.
#[tactic(auto, unfolding(crate::specs::Values::color_for_value))]
pub fn color_for_value(view: View<'_>, value: f32, nodata: Option<f32>) -> Result<u32, Refusal>
    ensures { result ≡ color_for_value (borrowed_legend view.entry) nodata value }
{
    view.stored_refusal()?;
    Ok(pixel(view, value, nodata))
}

// A raster of one sample, painted plainly.
#[tactic(auto, unfolding(legend_paint::specs::forms::PlainOrLanes::painted))]
fn pixel(view: View<'_>, value: f32, nodata: Option<f32>) -> u32
    requires { stored_refusal (borrowed_legend view) ≡ Done }
    ensures { result ≡ (painter (borrowed_legend view.entry) nodata).plain value }
{
    let samples = [value; 1];
    let mut words = [0u32; 1];
    legend_paint::paint(view, nodata, &samples, &mut words);
    words[0]
}
