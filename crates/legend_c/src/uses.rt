// What else a legend is used for: the colour of a sample, the whole range of its values, the list of its colours.
ghost use Rattle.std.specs.Prelude.{◌≡◌};
ghost use Rattle.cast.specs.Samples.{of_u8, of_i16};
ghost use Rattle.legend_range.specs.ValueRanges.{total_value_range};
ghost use Rattle.legend_pixel.specs.Values.{color_for_value};
ghost use Rattle.legend_apply.specs.ColorLists.{color_list};
ghost use Rattle.c_types.specs.Refusals.{legend_refusal, use_refusal};
ghost use Rattle.c_records.specs.Views.{view_from_c};
ghost use Rattle.c_records.specs.Records.{legend_from_c};
ghost use Rattle.c_types.specs.Samples.{nodata_if};
ghost use Rattle.c_answers.specs.Uses.{pixel_to_c, range_to_c, list_to_c};

use banded::Banded;
use c_answers::colors::LegendColor;
use c_answers::uses::{LegendColorList, LegendValueRange};
use c_records::record::LegendRecord;
use c_records::view::LegendView;

#[unsafe(no_mangle)]
pub extern "C" fn legend_view_color_for_f32(
    view: LegendView,
    banded: Banded,
    cmap: &[u32; 256],
    keys: &[i64; 256],
    colors: &[u32; 256],
    lookup: &[u32; 513],
    value: f32,
    nodata_given: u32,
    nodata: f32,
) -> LegendColor
    ensures { result ≡ pixel_to_c (use_refusal view.settings view.kind nodata_given)
        (color_for_value (view_from_c view banded cmap.now keys.now colors.now lookup.now)
        (nodata_if nodata_given nodata) value) }
{
    c_queries::uses::legend_view_color_for_f32(
        view,
        banded,
        cmap,
        keys,
        colors,
        lookup,
        value,
        nodata_given,
        nodata,
    )
}

#[unsafe(no_mangle)]
pub extern "C" fn legend_view_color_for_u8(
    view: LegendView,
    banded: Banded,
    cmap: &[u32; 256],
    keys: &[i64; 256],
    colors: &[u32; 256],
    lookup: &[u32; 513],
    value: u8,
    nodata_given: u32,
    nodata: u8,
) -> LegendColor
    ensures { result ≡ pixel_to_c (use_refusal view.settings view.kind nodata_given)
        (color_for_value (view_from_c view banded cmap.now keys.now colors.now lookup.now)
        (nodata_if nodata_given (of_u8 nodata)) (of_u8 value)) }
{
    c_queries::uses::legend_view_color_for_u8(
        view,
        banded,
        cmap,
        keys,
        colors,
        lookup,
        value,
        nodata_given,
        nodata,
    )
}

#[unsafe(no_mangle)]
pub extern "C" fn legend_view_color_for_i16(
    view: LegendView,
    banded: Banded,
    cmap: &[u32; 256],
    keys: &[i64; 256],
    colors: &[u32; 256],
    lookup: &[u32; 513],
    value: i16,
    nodata_given: u32,
    nodata: i16,
) -> LegendColor
    ensures { result ≡ pixel_to_c (use_refusal view.settings view.kind nodata_given)
        (color_for_value (view_from_c view banded cmap.now keys.now colors.now lookup.now)
        (nodata_if nodata_given (of_i16 nodata)) (of_i16 value)) }
{
    c_queries::uses::legend_view_color_for_i16(
        view,
        banded,
        cmap,
        keys,
        colors,
        lookup,
        value,
        nodata_given,
        nodata,
    )
}

#[unsafe(no_mangle)]
pub extern "C" fn legend_record_total_value_range(legend: LegendRecord) -> LegendValueRange
    ensures { result ≡ range_to_c (legend_refusal legend.settings legend.kind) (total_value_range (legend_from_c legend)) }
{
    c_queries::uses::legend_record_total_value_range(legend)
}

#[unsafe(no_mangle)]
pub extern "C" fn legend_record_color_list(legend: LegendRecord) -> LegendColorList
    ensures { result ≡ list_to_c (legend_refusal legend.settings legend.kind) (color_list (legend_from_c legend)) }
{
    c_queries::uses::legend_record_color_list(legend)
}
