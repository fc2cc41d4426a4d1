// How a categoric legend without a look-up table looks a sample up (docs/RULES.md, "Categoric"): among its keys. The count is that of a
// record, and whoever uses a record has refused (16) one above capacity before: so the keys counted are at most 256.
#![tactic(auto)]

ghost use Rattle.std.specs.Prelude.{◌≡◌, [], ◌≤◌};
ghost use Rattle.colormapper.specs.Rule.{rule_color};
ghost use Rattle.categoric_table.specs.Rule.{categoric_rule_colors};
ghost use Rattle.categoric_keys.specs.Rule.{first_key, key_color};
ghost use Rattle.categoric_lists.specs.Ascending.{ascends};

// The keys of a categoric legend and their colours, borrowed: the first `count` of each are its own.
#[derive(Clone, Copy)]
pub struct Keys<'a> {
    pub keys: &'a [i64; 256],
    pub colors: &'a [u32; 256],
    pub count: usize,
    ghost capacity: { count ≤ 256 },
}

impl<'a> Keys<'a> {
    // The colour of a sample by the first entry with its key.
    pub fn key_color(self, nodata: u32, value: f32) -> u32
        ensures { result ≡ key_color self.entry.keys.now self.entry.colors.now self.entry.count nodata value }
    {
        match cast::to_i64(value) {
            Some(key) => self.scan(nodata, key),
            None => nodata,
        }
    }

    // The colour of the first entry with a key. A loop: with `position` it does not prove, as a signed number that only the closure reads
    // is not known to fit its type.
    fn scan(self, nodata: u32, key: i64) -> u32
        ensures { result
            ≡ rule_color (categoric_rule_colors [] self.entry.colors.now nodata)
            (first_key self.entry.keys.now key 0 self.entry.count) }
    {
        for i in 0..self.count {
            if self.keys[i] == key {
                return self.colors[i];
            }
        }
        nodata
    }
}

// Whether the counted keys ascend, as a builder leaves them: checked once per painting. Left at the first that does not: comparisons of
// 64 bits are slower vectorised. Of a slice of a borrowed array the callers' proofs would not know the length: so the array is passed.
pub fn ascending(keys: &[i64; 256], count: usize) -> bool
    requires { count ≤ 256 }
    ensures { result ≡ ascends keys.now count }
{
    for i in 1..count {
        if keys[i - 1] >= keys[i] {
            return false;
        }
    }
    true
}
