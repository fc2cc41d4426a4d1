// The edges of the lane rule: the colours of a chunk that no band of a list finished (docs/RULES.md, "Banded").
ghost use Rattle.std.specs.Prelude.{◌≡◌, ◌≤◌, get_or};
ghost use Rattle.std.specs.Float.{nan};
ghost use Rattle.lists.specs.Lanes.{LanesOf};
ghost use Rattle.banded_lanes.specs.Edges.{lane_edge_color};

use banded_columns::LegendBand;
use colormapper::UnmappableColors;

// The colour of a lane whose chunk no band finished.
fn lane_edge_color(
    first: LegendBand,
    last: LegendBand,
    u: UnmappableColors,
    value: f32,
    color: u32,
) -> u32
    ensures { result ≡ lane_edge_color first last u value color }
{
    let x = select::pick(value < first.start, u.low, color);
    let y = select::pick(value > last.end, u.high, x);
    let z = select::pick(banded_rule::is_within(first.start, value), first.color, y);
    select::pick(banded_rule::is_within(last.end, value), last.color, z)
}

pub fn lane_edge_colors(
    lanes: usize,
    first: LegendBand,
    last: LegendBand,
    u: UnmappableColors,
    value: [f32; 16],
    color: [u32; 16],
) -> [u32; 16]
    requires { lanes ≤ 16 }
    ensures { LanesOf 0 lanes (λ k. lane_edge_color first last u (get_or value k nan) (get_or color k 0)) result }
{
    let mut result = [0u32; 16];
    for i in 0..lanes {
        result[i] = lane_edge_color(first, last, u, value[i], color[i]);
    }
    result
}
