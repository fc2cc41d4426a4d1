// Lists of bands over a chunk of lanes: the colour of each lane (docs/RULES.md, "Banded").
// Arrays hold sixteen lanes and `lanes` says how many count: contracts and must-fail edits speak of the places beyond (edges_beyond_the_count).
#![tactic(auto)]

pub mod edges;

ghost use Rattle.std.specs.Prelude.{◌≡◌, false, cond, ◌||◌, ◌≤◌, get_or, take};
ghost use Rattle.std.specs.Float.{nan};
ghost use Rattle.lists.specs.Lanes.{LanesOf};
ghost use Rattle.lists.specs.Padded.{padded};
ghost use Rattle.banded_columns.specs.Band.{holds};
ghost use Rattle.banded_rule.specs.forms.Columns.{bands_of};
ghost use Rattle.banded_lanes.specs.LaneRule.{lane_colors};
ghost use Rattle.banded_lanes.specs.forms.Scanning.{all_below, Scanned};

use banded_columns::LegendBand;
use banded_rule::Columns;
use colormapper::UnmappableColors;

// A chunk after the bands: its colours so far, and whether each lane lies in some band.
#[derive(Clone, Copy)]
pub struct Scan {
    pub colors: [u32; 16],
    pub finished: bool,
}

// The colours of a chunk. The lane counts of the painters are written out: the phases are vectorised for a lane count that is a
// literal. A painter may call the two phases itself, with a literal, and spare the call.
pub fn color_for_numeric_value_simd(
    lanes: usize,
    columns: Columns,
    u: UnmappableColors,
    value: [f32; 16],
) -> [u32; 16]
    requires { lanes ≤ 16 }
    ensures { result ≡ padded 0 16 (lane_colors (bands_of columns.entry) u (take lanes value)) }
{
    match lanes {
        4 => colors_simd::<4>(columns, u, value),
        8 => colors_simd::<8>(columns, u, value),
        16 => colors_simd::<16>(columns, u, value),
        _ => {
            let scan = scanned(lanes, columns, u.nodata, value);
            apply_lane_edges(lanes, columns, u, value, scan)
        }
    }
}

fn colors_simd<const L: usize>(columns: Columns, u: UnmappableColors, value: [f32; 16]) -> [u32; 16]
    requires { L ≤ 16 }
    ensures { result ≡ padded 0 16 (lane_colors (bands_of columns.entry) u (take L value)) }
{
    let scan = scanned(L, columns, u.nodata, value);
    apply_lane_edges(L, columns, u, value, scan)
}

// The bands over a chunk, in order, until each lane lies in some band.
pub fn scanned(lanes: usize, columns: Columns, nodata: u32, value: [f32; 16]) -> Scan
    requires { lanes ≤ 16 }
    ensures { Scanned lanes (bands_of columns.entry) nodata value result }
{
    let mut result = nodata_lanes(lanes, nodata);
    let mut inside = [false; 16];
    for i in 0..columns.count {
        let band = columns.band_at(i);
        if enter(lanes, band, &value, &mut result, &mut inside) {
            return Scan {
                colors: result,
                finished: true,
            };
        }
    }
    Scan {
        colors: result,
        finished: false,
    }
}

// Nodata in the first lanes, and 0 in the others.
fn nodata_lanes(lanes: usize, nodata: u32) -> [u32; 16]
    requires { lanes ≤ 16 }
    ensures { LanesOf 0 lanes (λ k. nodata) result }
{
    let mut result = [0u32; 16];
    for i in 0..lanes {
        result[i] = nodata;
    }
    result
}

// A band over the lanes that it holds, in arrays that have 0 and false in the others. Whether each lane now lies in some band.
fn enter(
    lanes: usize,
    band: LegendBand,
    value: &[f32; 16],
    words: &mut [u32; 16],
    inside: &mut [bool; 16],
) -> bool
    requires { (lanes ≤ 16) × LanesOf 0 lanes (λ k. get_or words.old k 0) words.old × LanesOf false lanes (λ k. get_or inside.old k false) inside.old }
    ensures colored { LanesOf 0 lanes (λ k. cond (holds band (get_or value.now k nan)) band.color (get_or words.old k 0))
        words.new }
    ensures entered { LanesOf false lanes (λ k. get_or inside.old k false || holds band (get_or value.now k nan)) inside.new }
    ensures all_inside { result ≡ all_below lanes (λ k. get_or inside.old k false || holds band (get_or value.now k nan)) }
{
    let mut all = true;
    for i in 0..lanes {
        let held = band.holds(value[i]);
        words[i] = select::pick(held, band.color, words[i]);
        let entered = inside[i] | held;
        inside[i] = entered;
        all = all & entered;
    }
    all
}

// A chunk that no band finished takes the colours of the edges. The scan is that of the same bands and values.
pub fn apply_lane_edges(
    lanes: usize,
    columns: Columns,
    u: UnmappableColors,
    value: [f32; 16],
    scan: Scan,
) -> [u32; 16]
    requires { (lanes ≤ 16) × Scanned lanes (bands_of columns) u.nodata value scan }
    ensures { result ≡ padded 0 16 (lane_colors (bands_of columns.entry) u (take lanes value)) }
{
    let result = scan.colors;
    if scan.finished {
        return result;
    }
    if columns.count == 0 {
        return result;
    }
    edges::lane_edge_colors(lanes, columns.first(), columns.last(), u, value, result)
}
