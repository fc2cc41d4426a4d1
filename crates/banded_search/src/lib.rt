// Ascending disjoint bands: at most one of them holds a sample, the one at its index (`banded_search::indices`; docs/RULES.md,
// "Banded").
#![tactic(auto)]

pub mod indices;

ghost use Rattle.std.specs.Prelude.{◌≡◌, true, cond, ◌≤◌, get_or};
ghost use Rattle.std.specs.Float.{nan};
ghost use Rattle.lists.specs.Lanes.{LanesOf};
ghost use Rattle.banded_columns.specs.Order.{ascending_disjoint};
ghost use Rattle.banded_rule.specs.forms.Columns.{bands_of};
ghost use Rattle.banded_rule.specs.PlainRule.{plain_color};
ghost use Rattle.banded_lanes.specs.forms.Scanning.{all_below};
ghost use Rattle.banded_search.specs.forms.Indices.{held_at, color_at, IndicesInBounds};

use banded_rule::Columns;
use colormapper::UnmappableColors;

// The colours of sixteen samples at once, by the plain rule.
pub fn colors_for_numeric_values(
    columns: Columns,
    u: UnmappableColors,
    value: [f32; 16],
) -> [u32; 16]
    requires { ascending_disjoint (bands_of columns) ≡ true }
    ensures { LanesOf 0 16
        (λ k. plain_color (bands_of columns.entry) u (get_or value k nan)) result }
{
    if columns.count == 0 {
        return [u.nodata; 16];
    }
    let edged = banded_rule::edge_colors(columns.first(), columns.last(), u, value);
    let indices = indices::band_indices(16, columns.starts, columns.count, value);
    colors_at(
        16,
        columns.starts,
        columns.ends,
        columns.colors,
        indices,
        value,
        edged,
    )
}

// ---- the phases, for a lane count that is a literal of the caller's: so they are vectorised

// The colour of the band at each lane's index where it holds the sample, else another.
pub fn colors_at(
    lanes: usize,
    starts: &[f32; 64],
    ends: &[f32; 64],
    colors: &[u32; 64],
    indices: [u32; 16],
    value: [f32; 16],
    otherwise: [u32; 16],
) -> [u32; 16]
    requires { (lanes ≤ 16) × IndicesInBounds lanes indices }
    ensures { LanesOf 0 lanes (λ k. color_at starts.now ends.now colors.now (get_or indices k 0) (get_or value k nan)
        (get_or otherwise k 0)) result }
{
    let mut result = [0u32; 16];
    for i in 0..lanes {
        let index = indices[i] as usize;
        let held = (starts[index] <= value[i]) & (value[i] < ends[index]);
        result[i] = select::pick(held, colors[index], otherwise[i]);
    }
    result
}

// Whether each lane's sample lies in the band at its index.
pub fn all_held(
    lanes: usize,
    starts: &[f32; 64],
    ends: &[f32; 64],
    indices: [u32; 16],
    value: [f32; 16],
) -> bool
    requires { (lanes ≤ 16) × IndicesInBounds lanes indices }
    ensures { result ≡ all_below lanes (λ k. held_at starts.now ends.now (get_or indices k 0) (get_or value k nan)) }
{
    let mut all = true;
    for i in 0..lanes {
        let index = indices[i] as usize;
        all = all & (starts[index] <= value[i]) & (value[i] < ends[index]);
    }
    all
}
