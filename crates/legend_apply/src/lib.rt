// Painting f32 rasters by a `Legend`, lent (docs/RULES.md, "Painting"): its arrays are lent to the calls of `legend_scalar` and `legend_kernel`.
// The list of its colours.
#![tactic(auto)]

ghost use Rattle.std.specs.Prelude.{◌≡◌};
ghost use Rattle.lists.specs.Tabulate.{tabulate};
ghost use Rattle.painting.specs.Paintings.{PlainPainting, LanePainting};
ghost use Rattle.legend.specs.Painters.{painter};
ghost use Rattle.legend_apply.specs.ColorLists.{value_at, color_list};

use banded_lists::ValueRange;
use legend::Legend;
use refusal::Refusal;

// ---- painting

pub fn apply_to_data_scalar(
    legend: &Legend,
    src: &[f32],
    nodata: Option<f32>,
    out: &mut [u32],
) -> Result<(), Refusal>
    ensures { PlainPainting (painter legend.now nodata) src.now out.old result out.new }
{
    let view = legend_view::view_of(legend);
    legend_scalar::apply_to_data_scalar(view, src, nodata, out)
}

pub fn apply_to_data_kernel(
    legend: &Legend,
    lanes: usize,
    src: &[f32],
    nodata: Option<f32>,
    out: &mut [u32],
    scratch: &mut [u32],
) -> Result<(), Refusal>
    ensures { LanePainting (painter legend.now nodata) lanes src.now out.old scratch.old result out.new
        scratch.new }
{
    let view = legend_view::view_of(legend);
    legend_kernel::apply_to_data_kernel(view, lanes, src, nodata, out, scratch)
}

// ---- the list of colours

// 256 colours from the lowest to the highest value.
#[tactic(auto, unfolding(legend_paint::specs::forms::PlainOrLanes::painted), using(crate::proofs::Listing::list_refused, crate::proofs::Listing::list_done, crate::proofs::Listing::ranged_stored))]
pub fn color_list(legend: &Legend) -> Result<[u32; 256], Refusal>
    ensures { result ≡ color_list legend.now }
{
    let range = legend_range::total_value_range(legend)?;
    let values = list_values(range);
    let mut colors = [0u32; 256];
    legend_paint::paint(legend_view::view_of(legend), None, &values, &mut colors);
    Ok(colors)
}

fn list_values(range: ValueRange) -> [f32; 256]
    ensures { result ≡ tabulate 256 (value_at range) }
{
    let mut values = [0.0f32; 256];
    for i in 0..256 {
        values[i] = range.start + (range.end - range.start) * (i as f32 / 255.0);
    }
    values
}
