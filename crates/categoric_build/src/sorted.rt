// Keys with colours, kept ascending in two arrays of 256: one category put in (docs/RULES.md, "Categoric").
ghost use Rattle.std.specs.Prelude.{◌≡◌, ◌≤◌, ◌<◌, length, take, set};
ghost use Rattle.categoric_build.specs.forms.Insertion.{insertion_index, shifted_up, Inserted};

// One category more, or another colour for its key; the count after it. Two arrays and a count, since they are what the record holds for C.
pub fn insert(
    keys: &mut [i64; 256],
    colors: &mut [u32; 256],
    count: usize,
    key: i64,
    color: u32,
) -> usize
    requires { (count < 256) × (length keys.old ≡ 256) × (length colors.old ≡ 256) }
    ensures { Inserted key color keys.old colors.old count keys.new colors.new result }
{
    let at = insertion_index(&keys[..count], key);
    if at < count && keys[at] <= key {
        store(keys, colors, at, key, color);
        return count;
    }
    shift_up(keys, colors, at, count);
    store(keys, colors, at, key, color);
    count + 1
}

// The first place whose key is not below the key.
fn insertion_index(keys: &[i64], key: i64) -> usize
    ensures { result ≡ insertion_index key keys.now }
{
    keys.iter()
        .position(|other| *other >= key)
        .unwrap_or(keys.len())
}

// Makes room at a place. One loop over both arrays: by `copy_within` the library for C would need `memmove` from outside.
fn shift_up(keys: &mut [i64; 256], colors: &mut [u32; 256], at: usize, count: usize)
    requires { (at ≤ count) × (count < 256) × (length keys.old ≡ 256) × (length colors.old ≡ 256) }
    ensures { (keys.new ≡ shifted_up at count keys.old) × (colors.new ≡ shifted_up at count colors.old) }
{
    for i in (at..count).rev() {
        keys[i + 1] = keys[i];
        colors[i + 1] = colors[i];
    }
}

fn store(keys: &mut [i64; 256], colors: &mut [u32; 256], at: usize, key: i64, color: u32)
    requires { at < 256 }
    ensures { (keys.new ≡ set keys.old at key) × (colors.new ≡ set colors.old at color) }
{
    keys[at] = key;
    colors[at] = color;
}
