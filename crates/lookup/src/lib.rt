// Looking a fraction up in a ramp, plainly and in lanes (docs/RULES.md, "Colours and ramps").
// Arrays hold sixteen lanes and `lanes` says how many count: contracts and must-fail edits speak of the places beyond (lanes_beyond_the_count).
#![tactic(auto)]

ghost use Rattle.std.specs.Prelude.{◌≡◌, true, cond, ◌≤◌, ◌<◌, get_or};
ghost use Rattle.std.specs.Float.{nan};
ghost use Rattle.floats.specs.RampIndex.{in_unit, lane_index};
ghost use Rattle.lists.specs.Lanes.{LanesOf};
ghost use Rattle.lookup.specs.Entries.{plain_entry, lane_entry, entry_color};
ghost use Rattle.lookup.specs.forms.UnitOrZero.{unit_or_zero};

use color::Color;

// The entry of a fraction.
pub fn get_entry(fraction: f32) -> Option<usize>
    ensures { result ≡ plain_entry fraction }
{
    if fraction >= 0.0 {
        if fraction <= 1.0 {
            return Some(round::nearest(fraction * 255.0));
        }
    }
    None
}

// The entry of a fraction by the rule of the lanes.
pub fn get_entry_lane(fraction: f32) -> Option<usize>
    ensures { result ≡ lane_entry fraction }
{
    if fraction >= 0.0 {
        if fraction <= 1.0 {
            return Some(lane_index(fraction));
        }
    }
    None
}

// The colour of a fraction.
pub fn get_color(cmap: &[u32; 256], fraction: f32) -> u32
    ensures { result ≡ entry_color cmap.now (plain_entry fraction) }
{
    let transparent = Color::TRANSPARENT.to_bits();
    let index = round::nearest(unit_or_zero(fraction) * 255.0);
    select::pick(in_unit(fraction), cmap[index], transparent)
}

// The colours of a chunk's fractions. Each lane looks up, and a fraction outside is replaced after that: a load under a branch
// is not vectorised. The lane count is a literal of the caller's.
pub fn get_color_simd(lanes: usize, cmap: &[u32; 256], fraction: [f32; 16]) -> [u32; 16]
    requires { lanes ≤ 16 }
    ensures { LanesOf 0 lanes (λ k. entry_color cmap.now (lane_entry (get_or fraction k nan))) result }
{
    let gathered = gather(lanes, cmap, fraction);
    mask_outside(lanes, fraction, gathered)
}

// Each lane's entry, that of 0 for a fraction outside.
#[tactic(auto, using(lists::proofs::LanesOf::stored_lanes))]
fn gather(lanes: usize, cmap: &[u32; 256], fraction: [f32; 16]) -> [u32; 16]
    requires { lanes ≤ 16 }
    ensures { LanesOf 0 lanes (λ k. get_or cmap.now (lane_index (unit_or_zero (get_or fraction k nan))) 0) result }
{
    let mut result = [0u32; 16];
    for i in 0..lanes {
        let index = lane_index(unit_or_zero(fraction[i]));
        result[i] = cmap[index];
    }
    result
}

// The colours of sixteen fractions by the plain rule, in the same way.
#[tactic(auto, using(lists::proofs::LanesOf::stored_lanes))]
pub fn get_colors(cmap: &[u32; 256], fraction: [f32; 16]) -> [u32; 16]
    ensures { LanesOf 0 16 (λ k. entry_color cmap.now (plain_entry (get_or fraction k nan))) result }
{
    let mut result = [0u32; 16];
    for i in 0..16 {
        result[i] = get_color(cmap, fraction[i]);
    }
    result
}

// The colours of the fractions from 0 to 1, TRANSPARENT for others.
#[tactic(auto, using(lists::proofs::LanesOf::stored_lanes))]
fn mask_outside(lanes: usize, fraction: [f32; 16], colors: [u32; 16]) -> [u32; 16]
    requires { lanes ≤ 16 }
    ensures { LanesOf 0 lanes (λ k. cond (in_unit (get_or fraction k nan)) (get_or colors k 0) 0) result }
{
    let transparent = Color::TRANSPARENT.to_bits();
    let mut result = [0u32; 16];
    for i in 0..lanes {
        result[i] = select::pick(in_unit(fraction[i]), colors[i], transparent);
    }
    result
}

// Whether a fraction lies from 0 to 1.
fn in_unit(fraction: f32) -> bool
    ensures { result ≡ in_unit fraction }
{
    (fraction >= 0.0) & (fraction <= 1.0)
}

// The fraction itself from 0 to 1, else 0.
fn unit_or_zero(fraction: f32) -> f32
    ensures { (result ≡ unit_or_zero fraction) × (in_unit result ≡ true) }
{
    if fraction >= 0.0 {
        if fraction <= 1.0 {
            return fraction;
        }
    }
    0.0
}

// The lanes' entry of a fraction from 0 to 1.
fn lane_index(fraction: f32) -> usize
    requires { in_unit fraction ≡ true }
    ensures { (result ≡ lane_index fraction) × (result < 256) }
{
    round::floor(fraction * 255.0 + 0.5)
}
