// The keys that a builder is given, in arrays of 256: those of a list and those of a range, and which are refused (docs/RULES.md, "Categoric").
#![tactic(auto)]

ghost use Rattle.std.specs.Prelude.{◌≡◌, false, ℕ, ◌≤◌, ◌<◌, pos, ◌+ℤ◌, length};
ghost use Rattle.std.specs.Int.{w64};
ghost use Rattle.std.proofs.Common.{SFits};
ghost use Rattle.lists.specs.Padded.{padded};
ghost use Rattle.lists.specs.Tabulate.{tabulate};
ghost use Rattle.categoric_lists.specs.Whole.{whole};
ghost use Rattle.categoric_lists.specs.Range.{range_count, too_wide, count_is};
ghost use Rattle.categoric_lists.specs.Keys.{outside, keys_refusal};

use refusal::Refusal;

// The values, then zeros.
pub fn list_keys(values: &[i64]) -> [i64; 256]
    requires { length values.now ≤ 256 }
    ensures { result ≡ padded (pos 0) 256 values.now }
{
    let mut result = [0i64; 256];
    result[..values.len()].copy_from_slice(values);
    result
}

// ---- the keys of a range

// Each sum fits: the start has the other sign.
#[tactic(auto, using(crate::proofs::Numbers::back, crate::proofs::Ranges::wide_sums))]
pub fn too_wide(start: i64, end: i64) -> bool
    ensures { result ≡ too_wide start end }
{
    if start <= 0 {
        return end > 9223372036854775806 + start;
    }
    end < -9223372036854775808 + start
}

pub fn range_count(start: i64, end: i64) -> i64
    requires { too_wide start end ≡ false }
    ensures { result ≡ range_count start end }
{
    end - start + 1
}

// Whether a count is how many are given.
pub fn count_is(count: i64, given: usize) -> bool
    ensures { result ≡ count_is count given }
{
    if count < 0 {
        return false;
    }
    count as usize == given
}

// How many keys a range has.
pub fn key_count(start: i64, end: i64) -> usize
    requires { too_wide start end ≡ false }
    ensures { result ≡ whole (range_count start end) }
{
    let count = range_count(start, end);
    if count < 0 {
        return 0;
    }
    count as usize
}

// The keys from `start` on, then zeros.
pub fn range_keys(start: i64, count: usize) -> [i64; 256]
    requires { (count ≤ 256) × ((k : ℕ) → k < count → SFits w64 (start +ℤ pos k)) }
    ensures { result ≡ padded (pos 0) 256 (tabulate count (λ k. start +ℤ pos k)) }
{
    let mut keys = [0i64; 256];
    for i in 0..count {
        keys[i] = start + i as i64;
    }
    keys
}

// ---- the first key that is refused

#[tactic(auto, using(crate::proofs::Refusing::key_refused, crate::proofs::Refusing::key_passed, crate::proofs::Refusing::keys_passed))]
pub fn keys_refusal(keys: &[i64]) -> Result<(), Refusal>
    ensures { result ≡ keys_refusal keys.now }
{
    for (i, key) in keys.iter().enumerate() {
        if out_of_range(*key) {
            return Err(Refusal::KeyOutOfRange(i));
        }
    }
    Ok(())
}

fn out_of_range(key: i64) -> bool
    ensures { result ≡ outside key }
{
    (key < -16777216) | (key > 16777216)
}
