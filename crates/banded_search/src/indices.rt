// Ascending disjoint bands, and the index of the one band that can hold a sample, found by counting (docs/RULES.md, "Banded"). The columns of the bands
// come with a count of at most 64.
ghost use Rattle.std.specs.Prelude.{◌≡◌, cond, List, ℕ, ◌+◌, ◌≤◌, get_or};
ghost use Rattle.std.specs.Float.{nan};
ghost use Rattle.std.specs.Float.Ieee.{le};
ghost use Rattle.lists.specs.Each.{each};
ghost use Rattle.lists.specs.Lanes.{LanesOf};
ghost use Rattle.banded_columns.specs.Order.{starts_below_end, clears, each_next, ascending_disjoint};
ghost use Rattle.banded_rule.specs.forms.Columns.{from_columns};
ghost use Rattle.banded_search.specs.forms.Indices.{IndicesInBounds, BandIndices};

// Whether each counted band starts below its end and none starts below the end of the one before, whatever their colours: checked once
// per painting.
#[tactic(auto, unfolding(banded_columns::specs::Order::ascending_disjoint))]
pub fn ascending_disjoint(starts: &[f32; 64], ends: &[f32; 64], count: usize) -> bool
    requires { count ≤ 64 }
    ensures { (colors : List ℕ) → result ≡ ascending_disjoint (from_columns starts.now ends.now colors count) }
{
    start_below_ends(starts, ends, count) & are_disjoint(starts, ends, count)
}

fn start_below_ends(starts: &[f32; 64], ends: &[f32; 64], count: usize) -> bool
    requires { count ≤ 64 }
    ensures { (colors : List ℕ) → result ≡ each starts_below_end (from_columns starts.now ends.now colors count) }
{
    let mut result = true;
    for i in 0..count {
        result = result & (starts[i] < ends[i]);
    }
    result
}

fn are_disjoint(starts: &[f32; 64], ends: &[f32; 64], count: usize) -> bool
    requires { count ≤ 64 }
    ensures { (colors : List ℕ) → result ≡ each_next clears (from_columns starts.now ends.now colors count) }
{
    let mut result = true;
    for i in 1..count {
        let before = i - 1;
        result = result & !(starts[i] < ends[before]);
    }
    result
}

// ---- the indices of lanes, for a lane count that is a literal of the caller's: so they are vectorised

// The index of the one band that can hold each lane's sample: a band that starts above the sample does not count.
pub fn band_indices(lanes: usize, starts: &[f32; 64], count: usize, value: [f32; 16]) -> [u32; 16]
    requires { (lanes ≤ 16) × (count ≤ 64) }
    ensures { BandIndices lanes starts.now count value result }
{
    let mut result = [0u32; 16];
    for i in 1..count {
        let next = advance_indices(lanes, starts[i], value, result);
        result = next;
    }
    result
}

// Each lane's index moved on where a start is not above its sample.
fn advance_indices(lanes: usize, start: f32, value: [f32; 16], indices: [u32; 16]) -> [u32; 16]
    requires { (lanes ≤ 16) × IndicesInBounds lanes indices }
    ensures { LanesOf 0 lanes (λ k. get_or indices k 0 + cond (le start (get_or value k nan)) 1 0) result }
{
    let mut result = [0u32; 16];
    for i in 0..lanes {
        result[i] = indices[i] + ((start <= value[i]) as u32);
    }
    result
}
