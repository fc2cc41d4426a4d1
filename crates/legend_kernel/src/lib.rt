// Painting rasters in lanes by a legend whose arrays are borrowed (docs/RULES.md, "Painting"). Samples are f32, u8 or i16.
#![tactic(auto)]

ghost use Rattle.std.specs.Prelude.{◌≡◌, cond, map, ◌≤◌, ◌<◌, length};
ghost use Rattle.painting.specs.Painted.{scratch_after};
ghost use Rattle.painting.specs.Paintings.{LanePainting};
ghost use Rattle.legend.specs.Painters.{painter};
ghost use Rattle.legend_view.specs.Borrowed.{borrowed_legend};

use legend_samples::PaintSample;
use legend_view::View;
use refusal::Refusal;

pub fn apply_to_data_kernel<S: PaintSample>(
    view: View<'_>,
    lanes: usize,
    src: &[S],
    nodata: Option<f32>,
    out: &mut [u32],
    scratch: &mut [u32],
) -> Result<(), Refusal>
    ensures { LanePainting (painter (borrowed_legend view.entry) nodata)
        lanes (map S.as_f32 src.now) out.old scratch.old result out.new scratch.new }
{
    painting::lane_refusal(
        view.stored_refusal(),
        lanes,
        scratch.len(),
        src.len(),
        out.len(),
    )?;
    S::paint(view, nodata, lanes, src, out);
    update_scratch(view.simd_supported(), lanes, out, scratch);
    Ok(())
}

// Scratch after lane painting: a legend without a rule for lanes, painted plainly, leaves it.
fn update_scratch(simd: bool, lanes: usize, out: &[u32], scratch: &mut [u32])
    requires { (0 < lanes) × (lanes ≤ length scratch.old) }
    ensures { scratch.new ≡ cond simd (scratch_after lanes out.now scratch.old) scratch.old }
{
    if simd {
        painting::keep_last(lanes, out, scratch);
    }
}
