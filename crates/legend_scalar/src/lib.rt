// Painting rasters plainly by a legend whose arrays are borrowed (docs/RULES.md, "Painting"). Samples are f32, u8 or i16.
#![tactic(auto)]

ghost use Rattle.std.specs.Prelude.{map};
ghost use Rattle.painting.specs.Paintings.{PlainPainting};
ghost use Rattle.legend.specs.Painters.{painter};
ghost use Rattle.legend_view.specs.Borrowed.{borrowed_legend};

use legend_samples::PaintSample;
use legend_view::View;
use refusal::Refusal;

pub fn apply_to_data_scalar<S: PaintSample>(
    view: View<'_>,
    src: &[S],
    nodata: Option<f32>,
    out: &mut [u32],
) -> Result<(), Refusal>
    ensures { PlainPainting (painter (borrowed_legend view.entry) nodata)
        (map S.as_f32 src.now) out.old result out.new }
{
    painting::plain_refusal(view.stored_refusal(), src.len(), out.len())?;
    S::paint(view, nodata, 0, src, out);
    Ok(())
}
