// Keys that ascend: sixteen samples searched for at once (docs/RULES.md, "Categoric"). The keys and the samples are narrowed
// to i32 first (`categoric_search::narrow`).
#![tactic(auto)]

pub mod narrow;

ghost use Rattle.std.specs.Prelude.{◌≡◌, cond, ◌+◌, ◌*◌, ◌<◌, ◌≤◌, pos, get_or};
ghost use Rattle.std.specs.Float.{nan};
ghost use Rattle.std.specs.Int.Signed.{le_z};
ghost use mir.Val.{bool_byte};
ghost use Rattle.categoric_keys.specs.Rule.{eq_z};
ghost use Rattle.lists.specs.Lanes.{Lanes};
ghost use Rattle.categoric_search.specs.forms.Bisection.{first_step, bisect, search_color, Within};

// The colours of sixteen samples, by any 256 numbers: one step to the 32 indices among which a key can be, and five bisections.
pub fn colors_for_numeric_values(
    narrow: &[i32; 256],
    colors: &[u32; 256],
    nodata: u32,
    value: [f32; 16],
) -> [u32; 16]
    ensures { Lanes 0 16 result (λ k. search_color narrow.now colors.now nodata (get_or value k nan)) }
{
    let key = narrow::narrowed_samples(value);
    let a = first_steps(narrow, key);
    let b = bisect(narrow, 16, key, a);
    let c = bisect(narrow, 8, key, b);
    let d = bisect(narrow, 4, key, c);
    let e = bisect(narrow, 2, key, d);
    let f = bisect(narrow, 1, key, e);
    let found = keys_at(narrow, f);
    let words = colors_at(colors, f);
    mask_missing(key, found, words, nodata)
}

// Each lane's leading index. Every lane reads the same seven numbers, so that this step needs no load by lane.
#[tactic(auto, using(crate::proofs::Steps::leading_within))]
fn first_steps(narrow: &[i32; 256], key: [i32; 16]) -> [u32; 16]
    ensures { (Lanes 0 16 result (λ k. first_step narrow.now (get_or key k (pos 0)))) × (Within 32 result) }
{
    let mut result = [0u32; 16];
    for i in 0..16 {
        result[i] = first_step(narrow, key[i]);
    }
    result
}

// The first of the 32 indices among which a key can be: how many of the numbers at every thirty-second index are not above it.
fn first_step(narrow: &[i32; 256], key: i32) -> u32
    ensures { result ≡ first_step narrow.now key }
{
    let a = reached(narrow[32], key);
    let b = reached(narrow[64], key);
    let c = reached(narrow[96], key);
    let d = reached(narrow[128], key);
    let e = reached(narrow[160], key);
    let f = reached(narrow[192], key);
    let g = reached(narrow[224], key);
    32 * (a + b + c + d + e + f + g)
}

// 1 where a number is not above a key, else 0.
#[tactic(auto, using(crate::proofs::Steps::flag_most))]
fn reached(number: i32, key: i32) -> u32
    ensures { (result ≡ bool_byte (le_z number key)) × (result ≤ 1) }
{
    (number <= key) as u32
}

// Each lane's half in which the key can be.
#[tactic(auto, using(crate::proofs::Steps::step_within))]
fn bisect(narrow: &[i32; 256], step: u32, key: [i32; 16], indices: [u32; 16]) -> [u32; 16]
    requires { (0 < step) × (Within (step * 2) indices) }
    ensures { (Lanes 0 16 result (λ k. bisect narrow.now step (get_or key k (pos 0)) (get_or indices k 0))) × (Within step result) }
{
    let mut result = [0u32; 16];
    for i in 0..16 {
        result[i] = half(narrow, step, key[i], indices[i]);
    }
    result
}

// The half of the numbers from an index on in which a key can be. The flag is a factor: as an `if` it would be a branch.
fn half(narrow: &[i32; 256], step: u32, key: i32, index: u32) -> u32
    requires { (0 < step) × (index + step * 2 ≤ 256) }
    ensures { result ≡ bisect narrow.now step key index }
{
    let at = (index + step) as usize;
    index + step * ((narrow[at] <= key) as u32)
}

// The samples' keys are compared in two phases: a load under a branch is not vectorised.

// The keys at the indices.
fn keys_at(narrow: &[i32; 256], indices: [u32; 16]) -> [i32; 16]
    requires { Within 1 indices }
    ensures { Lanes (pos 0) 16 result (λ k. get_or narrow.now (get_or indices k 0) (pos 0)) }
{
    let mut result = [0i32; 16];
    for i in 0..16 {
        let index = indices[i] as usize;
        result[i] = narrow[index];
    }
    result
}

// The colours at the indices.
fn colors_at(colors: &[u32; 256], indices: [u32; 16]) -> [u32; 16]
    requires { Within 1 indices }
    ensures { Lanes 0 16 result (λ k. get_or colors.now (get_or indices k 0) 0) }
{
    let mut result = [0u32; 16];
    for i in 0..16 {
        let index = indices[i] as usize;
        result[i] = colors[index];
    }
    result
}

// The words of the samples whose key was found, nodata for others.
fn mask_missing(key: [i32; 16], found: [i32; 16], words: [u32; 16], nodata: u32) -> [u32; 16]
    ensures { Lanes 0 16 result (λ k. cond (eq_z (get_or found k (pos 0)) (get_or key k (pos 0))) (get_or words k 0) nodata) }
{
    let mut result = [0u32; 16];
    for i in 0..16 {
        result[i] = select::pick(found[i] == key[i], words[i], nodata);
    }
    result
}
