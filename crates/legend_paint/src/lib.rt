// Painting f32 samples by a legend of any kind (docs/RULES.md, "Painting"), plainly with 0 lanes, else in lanes. The legend's arrays
// are lent. The refusals are the caller's.
#![tactic(auto)]

ghost use Rattle.std.specs.Prelude.{◌≡◌, true, ◌≤◌, length};
ghost use Rattle.refusal.specs.Outcome.{Done};
ghost use Rattle.painting.specs.Paintings.{lane_count};
ghost use Rattle.legend.specs.Record.{stored_refusal};
ghost use Rattle.legend.specs.Painters.{painter, linear_painter, banded_painter, categoric_painter};
ghost use Rattle.legend_view.specs.Borrowed.{borrowed_linear, borrowed_categoric, borrowed_legend};
ghost use Rattle.legend_paint.specs.forms.Paints.{linear_paint, banded_paint, categoric_paint};
ghost use Rattle.legend_paint.specs.forms.PlainOrLanes.{painted, plain_or_lanes};

use banded::Banded;
use banded_chunk::BandedPaint;
use banded_rule::Columns;
use categoric_keys::Keys;
use categoric_paint::{CategoricPaint, keys, table};
use categoric_table::Table;
use colormapper::MappingConfig;
use legend::LegendKind;
use legend_view::View;
use linear_paint::LinearPaint;
use linear_rule::LinearRule;

// ---- what each kind's painters are handed

fn linear_paint<'a>(
    start: f32,
    end: f32,
    cmap: &'a [u32; 256],
    config: MappingConfig,
    nodata: Option<f32>,
) -> LinearPaint<'a>
    ensures { result ≡ linear_paint cmap.entry start end config nodata }
{
    let colors = linear::unmappable_colors(cmap, config);
    LinearPaint {
        rule: LinearRule {
            cmap,
            start,
            end,
            colors,
        },
        exclusions: colormapper::exclusions_of(nodata, config.zero_is_nodata),
    }
}

fn banded_paint(banded: Banded, config: MappingConfig, nodata: Option<f32>) -> BandedPaint
    ensures { result ≡ banded_paint banded config nodata }
{
    BandedPaint {
        unmappable: banded::unmappable_colors(banded, config),
        exclusions: colormapper::exclusions_of(nodata, config.zero_is_nodata),
    }
}

fn categoric_paint(config: MappingConfig, nodata: Option<f32>) -> CategoricPaint
    ensures { result ≡ categoric_paint config nodata }
{
    CategoricPaint {
        nodata: config.nodata_color,
        exclusions: colormapper::exclusions_of(nodata, config.zero_is_nodata),
    }
}

// ---- a kind. Each is called from `paint` and from `paint_simd`, and so stays a call: these two are then inlined into the calls
// above them, and bands are copied for a banded legend alone.

fn paint_linear(
    start: f32,
    end: f32,
    cmap: &[u32; 256],
    config: MappingConfig,
    nodata: Option<f32>,
    lanes: usize,
    src: &[f32],
    out: &mut [u32],
)
    requires { (plain_or_lanes lanes ≡ true) × (length out.old ≡ length src.now) }
    ensures { out.new ≡ painted (linear_painter (borrowed_linear start end cmap.now) config nodata) lanes src.now }
{
    let linear = linear_paint(start, end, cmap, config, nodata);
    if lanes == 0 {
        linear.paint(src, out);
        return;
    }
    linear.paint_simd(lanes, src, out);
}

fn paint_banded(
    banded: Banded,
    config: MappingConfig,
    nodata: Option<f32>,
    lanes: usize,
    src: &[f32],
    out: &mut [u32],
)
    requires { (banded.count ≤ 64) × (plain_or_lanes lanes ≡ true) × (length out.old ≡ length src.now) }
    ensures { out.new ≡ painted (banded_painter banded config nodata) lanes src.now }
{
    let p = banded_paint(banded, config, nodata);
    let starts = banded_columns::starts_of(banded.bands);
    let ends = banded_columns::ends_of(banded.bands);
    let colors = banded_columns::colors_of(banded.bands);
    let columns = Columns {
        starts: &starts,
        ends: &ends,
        colors: &colors,
        count: banded.count,
    };
    if lanes == 0 {
        banded_paint::paint(columns, p, src, out);
        return;
    }
    banded_paint::paint_simd(columns, p, lanes, src, out);
}

// Without a table it has no rule for lanes.
fn paint_categoric(
    keys: Keys,
    table: Table,
    config: MappingConfig,
    nodata: Option<f32>,
    lanes: usize,
    src: &[f32],
    out: &mut [u32],
)
    requires { (plain_or_lanes lanes ≡ true) × (length out.old ≡ length src.now) }
    ensures { out.new
        ≡ painted
        (categoric_painter
        (borrowed_categoric keys.entry.keys.now keys.entry.colors.now keys.entry.count table.entry.lookup.now
        table.entry.size)
        config nodata)
        lanes src.now }
{
    let p = categoric_paint(config, nodata);
    if table.size == 0 {
        keys::paint_by_keys(keys, p, src, out);
        return;
    }
    if lanes == 0 {
        table::paint_by_table(table, p, src, out);
        return;
    }
    table::paint_by_table_simd(table, p, lanes, src, out);
}

// ---- a legend of any kind

// Sample by sample, with an output of the raster's length.
#[tactic(auto, unfolding(legend::specs::Painters::painter))]
pub fn paint(view: View<'_>, nodata: Option<f32>, src: &[f32], out: &mut [u32])
    requires { (stored_refusal (borrowed_legend view) ≡ Done) × (length out.old ≡ length src.now) }
    ensures { out.new ≡ painted (painter (borrowed_legend view.entry) nodata) 0 src.now }
{
    let config = view.mapping_config;
    match view.kind {
        LegendKind::Linear => {
            paint_linear(view.start, view.end, view.cmap, config, nodata, 0, src, out)
        }
        LegendKind::Banded => paint_banded(*view.banded, config, nodata, 0, src, out),
        LegendKind::CategoricNumeric => {
            let keys = Keys {
                keys: view.keys,
                colors: view.colors,
                count: view.count,
            };
            let table = Table {
                lookup: view.lookup,
                size: view.lookup_count,
            };
            paint_categoric(keys, table, config, nodata, 0, src, out)
        }
    }
}

// Chunks of l samples by the lane rule, then the rest plainly; a legend without a rule for lanes plainly.
#[tactic(auto, unfolding(legend::specs::Painters::painter))]
pub fn paint_simd(view: View<'_>, nodata: Option<f32>, l: usize, src: &[f32], out: &mut [u32])
    requires { (stored_refusal (borrowed_legend view) ≡ Done) × (plain_or_lanes l ≡ true) × (length out.old ≡ length src.now) }
    ensures { out.new ≡ painted (painter (borrowed_legend view.entry) nodata) l src.now }
{
    let config = view.mapping_config;
    match view.kind {
        LegendKind::Linear => {
            paint_linear(view.start, view.end, view.cmap, config, nodata, l, src, out)
        }
        LegendKind::Banded => paint_banded(*view.banded, config, nodata, l, src, out),
        LegendKind::CategoricNumeric => {
            let keys = Keys {
                keys: view.keys,
                colors: view.colors,
                count: view.count,
            };
            let table = Table {
                lookup: view.lookup,
                size: view.lookup_count,
            };
            paint_categoric(keys, table, config, nodata, l, src, out)
        }
    }
}
