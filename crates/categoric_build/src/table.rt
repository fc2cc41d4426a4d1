// The table of colours by key, of keys that are small (docs/RULES.md, "Categoric").
ghost use Rattle.std.specs.Prelude.{◌≡◌, ◌≤◌, ◌<◌, length};
ghost use Rattle.lists.specs.Padded.{padded};
ghost use Rattle.categoric_build.specs.Table.{smallest, largest, table_size, table};

// TRANSPARENT in every word, then the keys' words, where the keys have a table: the size is how many words it has.
#[tactic(auto, using(crate::proofs::Tables::lookups), unfolding(crate::specs::Table::written))]
pub fn create_fast_lookup(keys: &[i64], colors: &[u32], size: usize) -> [u32; 513]
    requires { (length keys.now ≤ length colors.now) × (size ≡ table_size keys.now) }
    ensures { result ≡ padded 0 513 (table keys.now colors.now) }
{
    let mut lookup = [0u32; 513];
    if size == 0 {
        return lookup;
    }
    for (i, key) in keys.iter().enumerate() {
        let at = *key as usize;
        lookup[at] = colors[i];
    }
    lookup
}

#[tactic(auto, using(crate::proofs::Tables::searches), unfolding(crate::specs::Table::foremost))]
pub fn smallest(keys: &[i64]) -> i64
    requires { 0 < length keys.now }
    ensures { result ≡ smallest keys.now }
{
    let mut least = keys[0];
    for key in keys {
        if *key < least {
            least = *key;
        }
    }
    least
}

#[tactic(auto, using(crate::proofs::Tables::searches), unfolding(crate::specs::Table::foremost))]
pub fn largest(keys: &[i64]) -> i64
    requires { 0 < length keys.now }
    ensures { result ≡ largest keys.now }
{
    let mut most = keys[0];
    for key in keys {
        if *key > most {
            most = *key;
        }
    }
    most
}
