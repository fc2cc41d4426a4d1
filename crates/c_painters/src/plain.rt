// Plain painting.
// One function for each type of samples that C passes: must-fail edits take one type alone (plain_u8_nodata_never_given), which a generic body could not show.
ghost use Rattle.std.specs.Prelude.{map};
ghost use Rattle.cast.specs.Samples.{of_u8, of_i16};
ghost use Rattle.c_types.specs.Samples.{nodata_if};
ghost use Rattle.c_painters.specs.Painting.{painter_of_view, PlainOutcome};

use banded::Banded;
use c_records::view;
use c_records::view::LegendView;
use c_types::answer::LegendAnswer;
use c_types::{answer, refusals, samples};
use refusal::Refusal;

#[tactic(auto, using(crate::proofs::Calling::plain_painted))]
pub fn legend_view_paint_f32(
    view: LegendView,
    banded: Banded,
    cmap: &[u32; 256],
    keys: &[i64; 256],
    colors: &[u32; 256],
    lookup: &[u32; 513],
    src: &[f32],
    nodata_given: u32,
    nodata: f32,
    out: &mut [u32],
) -> LegendAnswer
    ensures { PlainOutcome (painter_of_view view banded cmap.now keys.now colors.now lookup.now nodata_given
        (nodata_if nodata_given nodata)) src.now out.old result out.new }
{
    match refusals::use_refusal(view.settings, view.kind, nodata_given) {
        Ok(()) => answer::to_c(legend_scalar::apply_to_data_scalar(
            view::view_from_c(view, &banded, cmap, keys, colors, lookup),
            src,
            samples::nodata_if(nodata_given, nodata),
            out,
        )),
        Err(why) => answer::to_c(Err(why)),
    }
}

#[tactic(auto, using(crate::proofs::Calling::plain_painted))]
pub fn legend_view_paint_u8(
    view: LegendView,
    banded: Banded,
    cmap: &[u32; 256],
    keys: &[i64; 256],
    colors: &[u32; 256],
    lookup: &[u32; 513],
    src: &[u8],
    nodata_given: u32,
    nodata: u8,
    out: &mut [u32],
) -> LegendAnswer
    ensures { PlainOutcome (painter_of_view view banded cmap.now keys.now colors.now lookup.now nodata_given
        (nodata_if nodata_given (of_u8 nodata))) (map of_u8 src.now) out.old result out.new }
{
    match refusals::use_refusal(view.settings, view.kind, nodata_given) {
        Ok(()) => answer::to_c(legend_scalar::apply_to_data_scalar(
            view::view_from_c(view, &banded, cmap, keys, colors, lookup),
            src,
            samples::nodata_if(nodata_given, cast::u8_to_f32(nodata)),
            out,
        )),
        Err(why) => answer::to_c(Err(why)),
    }
}

#[tactic(auto, using(crate::proofs::Calling::plain_painted))]
pub fn legend_view_paint_i16(
    view: LegendView,
    banded: Banded,
    cmap: &[u32; 256],
    keys: &[i64; 256],
    colors: &[u32; 256],
    lookup: &[u32; 513],
    src: &[i16],
    nodata_given: u32,
    nodata: i16,
    out: &mut [u32],
) -> LegendAnswer
    ensures { PlainOutcome (painter_of_view view banded cmap.now keys.now colors.now lookup.now nodata_given
        (nodata_if nodata_given (of_i16 nodata))) (map of_i16 src.now) out.old result out.new }
{
    match refusals::use_refusal(view.settings, view.kind, nodata_given) {
        Ok(()) => answer::to_c(legend_scalar::apply_to_data_scalar(
            view::view_from_c(view, &banded, cmap, keys, colors, lookup),
            src,
            samples::nodata_if(nodata_given, cast::i16_to_f32(nodata)),
            out,
        )),
        Err(why) => answer::to_c(Err(why)),
    }
}
