// A tally of samples by the rules that gave them their colours, and how a painting counts: seven counts in
// one number, as its digits in base 512. A sample adds the weight of its slot (`weigh`), the digits go to totals once per block of at
// most 511 samples (`unpack`), and the totals to the tally once per painting (`add`).
#![tactic(auto)]

ghost use Rattle.std.specs.Prelude.{◌≡◌, true, ℕ, ◌+◌, ◌^◌, ◌≤◌, ◌<◌, get_or, length, take, replicate};
ghost use Rattle.tally.specs.Counts.{sum, has_room};
ghost use Rattle.tally.specs.forms.Packed.{weight_sum, digits_added, spread};

// One count for each rule.
#[derive(Clone, Copy)]
pub struct Tally {
    pub counts: [u64; 12],
}

impl Tally {
    // Nothing counted.
    pub fn default() -> Tally
        ensures { result.counts ≡ replicate 12 0 }
    {
        Tally { counts: [0u64; 12] }
    }

    // Whether each count has room for n more.
    pub fn has_room(self, n: usize) -> bool
        ensures { result ≡ has_room self.counts n }
    {
        let most = u64::MAX - n as u64;
        self.counts.iter().all(|count| *count <= most)
    }

    // Each slot's total, to the count of the slot's rule.
    pub fn add(self, rules: [u32; 7], totals: [u64; 7]) -> Tally
        requires { ((s : ℕ) → s < 7 → get_or rules s 0 < 12) × (has_room self.counts (sum totals) ≡ true) }
        ensures { result.counts ≡ spread self.counts rules totals }
    {
        let mut counts = self.counts;
        for s in 0..7 {
            let rule = rules[s] as usize;
            counts[rule] += totals[s];
        }
        Tally { counts }
    }
}

// The weights of the first m codes, onto a number.
pub fn weigh(m: usize, codes: [u32; 16], weights: &[u64], number: u64) -> u64
    requires { (m ≤ 16) × ((k : ℕ) → k < m → get_or codes k 0 < length weights.now) × (number + weight_sum weights.now (take m codes) < 2 ^ 64) }
    ensures { result ≡ number + weight_sum weights.now (take m codes) }
{
    let mut result = number;
    for i in 0..m {
        let code = codes[i] as usize;
        result += weights[code];
    }
    result
}

// The digits of a number, onto totals.
pub fn unpack(totals: [u64; 7], number: u64) -> [u64; 7]
    requires { (s : ℕ) → s < 7 → get_or totals s 0 + 511 < 2 ^ 64 }
    ensures { result ≡ digits_added totals number }
{
    let mut result = totals;
    let mut rest = number;
    for s in 0..7 {
        result[s] += rest % 512;
        rest /= 512;
    }
    result
}
