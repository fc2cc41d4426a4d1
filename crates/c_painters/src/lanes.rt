// Painting in lanes.
// One function for each type of samples that C passes: must-fail edits take one type alone (lanes_u8_nodata_never_given), which a generic body could not show.
ghost use Rattle.std.specs.Prelude.{map};
ghost use Rattle.cast.specs.Samples.{of_u8, of_i16};
ghost use Rattle.c_types.specs.Samples.{nodata_if};
ghost use Rattle.c_painters.specs.Painting.{painter_of_view, LaneOutcome};

use banded::Banded;
use c_records::view;
use c_records::view::LegendView;
use c_types::answer::LegendAnswer;
use c_types::{answer, refusals, samples};
use refusal::Refusal;

#[tactic(auto, using(crate::proofs::Calling::lanes_painted))]
pub fn legend_view_paint_lanes_f32(
    view: LegendView,
    banded: Banded,
    cmap: &[u32; 256],
    keys: &[i64; 256],
    colors: &[u32; 256],
    lookup: &[u32; 513],
    lanes: usize,
    src: &[f32],
    nodata_given: u32,
    nodata: f32,
    out: &mut [u32],
    scratch: &mut [u32],
) -> LegendAnswer
    ensures { LaneOutcome (painter_of_view view banded cmap.now keys.now colors.now lookup.now nodata_given
        (nodata_if nodata_given nodata)) lanes src.now out.old scratch.old result out.new scratch.new }
{
    match refusals::use_refusal(view.settings, view.kind, nodata_given) {
        Ok(()) => answer::to_c(legend_kernel::apply_to_data_kernel(
            view::view_from_c(view, &banded, cmap, keys, colors, lookup),
            lanes,
            src,
            samples::nodata_if(nodata_given, nodata),
            out,
            scratch,
        )),
        Err(why) => answer::to_c(Err(why)),
    }
}

#[tactic(auto, using(crate::proofs::Calling::lanes_painted))]
pub fn legend_view_paint_lanes_u8(
    view: LegendView,
    banded: Banded,
    cmap: &[u32; 256],
    keys: &[i64; 256],
    colors: &[u32; 256],
    lookup: &[u32; 513],
    lanes: usize,
    src: &[u8],
    nodata_given: u32,
    nodata: u8,
    out: &mut [u32],
    scratch: &mut [u32],
) -> LegendAnswer
    ensures { LaneOutcome (painter_of_view view banded cmap.now keys.now colors.now lookup.now nodata_given
        (nodata_if nodata_given (of_u8 nodata))) lanes (map of_u8 src.now) out.old scratch.old result out.new
        scratch.new }
{
    match refusals::use_refusal(view.settings, view.kind, nodata_given) {
        Ok(()) => answer::to_c(legend_kernel::apply_to_data_kernel(
            view::view_from_c(view, &banded, cmap, keys, colors, lookup),
            lanes,
            src,
            samples::nodata_if(nodata_given, cast::u8_to_f32(nodata)),
            out,
            scratch,
        )),
        Err(why) => answer::to_c(Err(why)),
    }
}

#[tactic(auto, using(crate::proofs::Calling::lanes_painted))]
pub fn legend_view_paint_lanes_i16(
    view: LegendView,
    banded: Banded,
    cmap: &[u32; 256],
    keys: &[i64; 256],
    colors: &[u32; 256],
    lookup: &[u32; 513],
    lanes: usize,
    src: &[i16],
    nodata_given: u32,
    nodata: i16,
    out: &mut [u32],
    scratch: &mut [u32],
) -> LegendAnswer
    ensures { LaneOutcome (painter_of_view view banded cmap.now keys.now colors.now lookup.now nodata_given
        (nodata_if nodata_given (of_i16 nodata))) lanes (map of_i16 src.now) out.old scratch.old result out.new
        scratch.new }
{
    match refusals::use_refusal(view.settings, view.kind, nodata_given) {
        Ok(()) => answer::to_c(legend_kernel::apply_to_data_kernel(
            view::view_from_c(view, &banded, cmap, keys, colors, lookup),
            lanes,
            src,
            samples::nodata_if(nodata_given, cast::i16_to_f32(nodata)),
            out,
            scratch,
        )),
        Err(why) => answer::to_c(Err(why)),
    }
}
