// Plain painting.
ghost use Rattle.std.specs.Prelude.{map};
ghost use Rattle.cast.specs.Samples.{of_u8, of_i16};
ghost use Rattle.c_types.specs.Samples.{nodata_if};
ghost use Rattle.c_painters.specs.Painting.{painter_of_view, PlainOutcome};

use banded::Banded;
use c_records::view::LegendView;
use c_types::answer::LegendAnswer;

#[unsafe(no_mangle)]
pub extern "C" fn legend_view_paint_f32(
    view: LegendView,
    banded: Banded,
    cmap: &[u32; 256],
    keys: &[i64; 256],
    colors: &[u32; 256],
    lookup: &[u32; 513],
    src: &[f32],
    nodata_given: u32,
    nodata: f32,
    out: &mut [u32],
) -> LegendAnswer
    ensures { PlainOutcome (painter_of_view view banded cmap.now keys.now colors.now lookup.now nodata_given
        (nodata_if nodata_given nodata)) src.now out.old result out.new }
{
    c_painters::plain::legend_view_paint_f32(
        view,
        banded,
        cmap,
        keys,
        colors,
        lookup,
        src,
        nodata_given,
        nodata,
        out,
    )
}

#[unsafe(no_mangle)]
pub extern "C" fn legend_view_paint_u8(
    view: LegendView,
    banded: Banded,
    cmap: &[u32; 256],
    keys: &[i64; 256],
    colors: &[u32; 256],
    lookup: &[u32; 513],
    src: &[u8],
    nodata_given: u32,
    nodata: u8,
    out: &mut [u32],
) -> LegendAnswer
    ensures { PlainOutcome (painter_of_view view banded cmap.now keys.now colors.now lookup.now nodata_given
        (nodata_if nodata_given (of_u8 nodata))) (map of_u8 src.now) out.old result out.new }
{
    c_painters::plain::legend_view_paint_u8(
        view,
        banded,
        cmap,
        keys,
        colors,
        lookup,
        src,
        nodata_given,
        nodata,
        out,
    )
}

#[unsafe(no_mangle)]
pub extern "C" fn legend_view_paint_i16(
    view: LegendView,
    banded: Banded,
    cmap: &[u32; 256],
    keys: &[i64; 256],
    colors: &[u32; 256],
    lookup: &[u32; 513],
    src: &[i16],
    nodata_given: u32,
    nodata: i16,
    out: &mut [u32],
) -> LegendAnswer
    ensures { PlainOutcome (painter_of_view view banded cmap.now keys.now colors.now lookup.now nodata_given
        (nodata_if nodata_given (of_i16 nodata))) (map of_i16 src.now) out.old result out.new }
{
    c_painters::plain::legend_view_paint_i16(
        view,
        banded,
        cmap,
        keys,
        colors,
        lookup,
        src,
        nodata_given,
        nodata,
        out,
    )
}
