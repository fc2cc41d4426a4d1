// How a categoric legend with a look-up table looks a sample up (docs/RULES.md, "Categoric"). The size is that of a record, and whoever
// uses a record has refused (16) one above capacity before: so a table's size is at most 513.
#![tactic(auto)]

ghost use Rattle.std.specs.Prelude.{◌≡◌, cond, ℕ, ◌≤◌, ◌<◌, T, get_or};
ghost use Rattle.std.specs.Float.{nan};
ghost use Rattle.floats.specs.RampIndex.{nought, floor_of};
ghost use Rattle.lists.specs.Lanes.{LanesOf};
ghost use Rattle.categoric_table.specs.forms.InTable.{size_limit, in_table, mappable_in_table, clamp, is_index};

use colormapper::Exclusions;

// The look-up table of a categoric legend, borrowed: the first `size` words are its own.
#[derive(Clone, Copy)]
pub struct Table<'a> {
    pub lookup: &'a [u32; 513],
    pub size: usize,
    ghost capacity: { size ≤ 513 },
}

// A chunk's samples are looked up in two phases, `gather` and then `mask_missing` (proofs/Phases.antt): a load under a branch is
// not vectorised. Painters call both with a literal lane count.
impl<'a> Table<'a> {
    // Each lane's word, the first for a sample that is not from 0 to below the size.
    pub fn gather(self, lanes: usize, value: [f32; 16]) -> [u32; 16]
        requires { lanes ≤ 16 }
        ensures { LanesOf 0 lanes (λ k. get_or self.entry.lookup.now (floor_of (clamp self.entry.size (get_or value k nan))) 0) result }
    {
        let places = self.clamped_lanes(lanes, value);
        words_at(lanes, self.lookup, places)
    }

    // Each lane clamped. A loop of its own: with `words_at` it would be too long for the compiler to unroll, and so not vectorised.
    fn clamped_lanes(self, lanes: usize, value: [f32; 16]) -> [f32; 16]
        requires { lanes ≤ 16 }
        ensures { LanesOf nought lanes (λ k. clamp self.entry.size (get_or value k nan)) result }
    {
        let mut result = [0.0f32; 16];
        for i in 0..lanes {
            result[i] = self.clamped(value[i]);
        }
        result
    }

    // The words of the samples in the table that are not excluded, nodata for others.
    pub fn mask_missing(
        self,
        lanes: usize,
        nodata: u32,
        exclusions: Exclusions,
        value: [f32; 16],
        words: [u32; 16],
    ) -> [u32; 16]
        requires { lanes ≤ 16 }
        ensures { LanesOf 0 lanes (λ k. cond (mappable_in_table exclusions self.entry.size (get_or value k nan)) (get_or words k 0) nodata) result }
    {
        mask_missing(lanes, self.size, nodata, exclusions, value, words)
    }

    // The sample itself from 0 to below the size, else 0. The first choice is by a test that `mask_missing` makes too, and in this
    // form the second is one instruction.
    fn clamped(self, value: f32) -> f32
        ensures { result ≡ clamp self.entry.size value }
    {
        let low = if value < limit_of(self.size) {
            value
        } else {
            0.0
        };
        if low > 0.0 { low } else { 0.0 }
    }
}

// The words at the places' whole parts.
fn words_at(lanes: usize, lookup: &[u32; 513], places: [f32; 16]) -> [u32; 16]
    requires { (lanes ≤ 16) × ((k : ℕ) → k < lanes → T (is_index (get_or places k nan))) }
    ensures { LanesOf 0 lanes (λ k. get_or lookup.now (floor_of (get_or places k nan)) 0) result }
{
    let mut result = [0u32; 16];
    for i in 0..lanes {
        let index = round::floor(places[i]);
        result[i] = lookup[index];
    }
    result
}

// The words of the samples in a table of `size` words that are not excluded, nodata for others. A NaN is not in the table.
pub fn mask_missing(
    lanes: usize,
    size: usize,
    nodata: u32,
    exclusions: Exclusions,
    value: [f32; 16],
    words: [u32; 16],
) -> [u32; 16]
    requires { (lanes ≤ 16) × (size ≤ 513) }
    ensures { LanesOf 0 lanes (λ k. cond (mappable_in_table exclusions size (get_or value k nan)) (get_or words k 0) nodata) result }
{
    let mut result = [0u32; 16];
    for i in 0..lanes {
        let v = value[i];
        let own = in_table(size, v) & (v != exclusions.nodata) & (v != exclusions.zero);
        result[i] = select::pick(own, words[i], nodata);
    }
    result
}

// Whether a sample has a word in the table: cut toward zero, it lies from 0 to below the size.
fn in_table(size: usize, value: f32) -> bool
    requires { size ≤ 513 }
    ensures { result ≡ in_table size value }
{
    (value > -1.0) & (value < limit_of(size))
}

// The size as a float: a sample is compared before it is cut. An empty table has no sample below its limit and above -1.
#[tactic(auto, using(crate::proofs::TableTest::limit_above))]
fn limit_of(size: usize) -> f32
    requires { size ≤ 513 }
    ensures { result ≡ size_limit size }
{
    if size == 0 { -1.0 } else { size as f32 }
}
