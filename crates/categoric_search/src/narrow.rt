// Keys and samples as 32-bit numbers, for a search by halving (docs/RULES.md, "Categoric"): whether the keys ascend and lie near enough
// to 0, and if so their narrowing to i32, with the samples'. Comparisons of 64 bits are not vectorised.
ghost use Rattle.std.specs.Prelude.{◌≡◌, true, ◌≤◌, pos, get_or};
ghost use Rattle.std.specs.Float.{nan};
ghost use Rattle.cast.specs.Truncated.{truncated};
ghost use Rattle.lists.specs.Lanes.{Lanes};
ghost use Rattle.categoric_search.specs.forms.Searchable.{in_key_range, ends_in_key_range, searchable};
ghost use Rattle.categoric_search.specs.forms.Narrow.{Narrow, narrow_key};

// ---- the keys, once per painting

// Whether the counted keys ascend and each lies from -16,777,216 to 16,777,216, as a builder leaves them.
pub fn searchable(keys: &[i64; 256], count: usize) -> bool
    requires { count ≤ 256 }
    ensures { result ≡ searchable keys.now count }
{
    let up = categoric_keys::ascending(keys, count);
    let ends = ends_in_key_range(keys, count);
    up & ends
}

// Whether the first and the last of the counted keys lie in that range: those between them do where they ascend.
fn ends_in_key_range(keys: &[i64; 256], count: usize) -> bool
    requires { count ≤ 256 }
    ensures { result ≡ ends_in_key_range keys.now count }
{
    if count == 0 {
        return true;
    }
    in_key_range(keys[0]) & in_key_range(keys[count - 1])
}

// Whether a key lies in that range.
#[tactic(auto, unfolding(crate::specs::forms::Searchable::in_key_range))]
fn in_key_range(key: i64) -> bool
    ensures { result ≡ in_key_range key }
{
    (-16777217 < key) & (key < 16777217)
}

// The counted keys as i32, then 2,147,483,647, which is above every key.
#[tactic(auto, using(crate::proofs::NearKeys::counted_fit))]
pub fn narrowed(keys: &[i64; 256], count: usize) -> [i32; 256]
    requires { (count ≤ 256) × (searchable keys.now count ≡ true) }
    ensures { Narrow keys.now count result }
{
    let mut result = [2147483647i32; 256];
    for i in 0..count {
        result[i] = keys[i] as i32;
    }
    result
}

// ---- the samples

// Each sample's key.
pub fn narrowed_samples(value: [f32; 16]) -> [i32; 16]
    ensures { Lanes (pos 0) 16 result (λ k. narrow_key (truncated (get_or value k nan))) }
{
    let mut result = [0i32; 16];
    for i in 0..16 {
        result[i] = narrowed_sample(value[i]);
    }
    result
}

// The key of a sample, or -16,777,217, which is no key, where it has none or one outside the range.
fn narrowed_sample(value: f32) -> i32
    ensures { result ≡ narrow_key (truncated value) }
{
    match cast::to_i64(value) {
        Some(key) => narrowed_key(key),
        None => -16777217,
    }
}

// A key within the range as it is.
fn narrowed_key(key: i64) -> i32
    ensures { result ≡ narrow_key (Some key) }
{
    let kept = if in_key_range(key) { key } else { -16777217 };
    kept as i32
}
