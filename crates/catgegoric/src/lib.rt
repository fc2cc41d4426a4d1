// Categoric legends: keys with colours, and a table of colours by key where the keys are small (docs/RULES.md, "Categoric").
#![tactic(auto)]

ghost use Rattle.std.specs.Prelude.{◌≡◌, ◌≤◌, length, take};
ghost use Rattle.refusal.specs.Outcome.{Done};
ghost use Rattle.lists.specs.Padded.{padded};
ghost use Rattle.categoric_lists.specs.Keys.{keys_refusal};
ghost use Rattle.categoric_build.specs.Categories.{categories};
ghost use Rattle.categoric_build.specs.Table.{table_size, table};
ghost use Rattle.catgegoric.specs.Made.{empty_categoric, record_of, record_unless, many_refusal, values_refusal, for_values, for_values_from_ramp, wide_refusal};
ghost use Rattle.catgegoric.specs.Made.{value_range_refusal, for_value_range, for_value_range_from_ramp, categoric_refusal, categoric_colors};

use categoric_build::{sorted, table};
use colormapper::{MappingConfig, UnmappableColors};
use refusal::Refusal;

// The first `count` keys, ascending, with their colours, and the table's first `lookup_count` words. Other places are 0.
#[repr(C)]
#[derive(Clone, Copy)]
pub struct CategoricNumeric {
    pub keys: [i64; 256],
    pub colors: [u32; 256],
    pub count: usize,
    pub lookup: [u32; 513],
    pub lookup_count: usize,
}

impl CategoricNumeric {
    // The largest key of a table.
    pub const MAX_LOOKUP_SIZE: i64 = 512;

    pub fn default() -> CategoricNumeric
        ensures { result ≡ empty_categoric }
    {
        CategoricNumeric {
            keys: [0i64; 256],
            colors: [0u32; 256],
            count: 0,
            lookup: [0u32; 513],
            lookup_count: 0,
        }
    }

    // A category for each value, with the colours of a list.
    #[inline(always)]
    #[tactic(auto, using(crate::proofs::Making::values_refused))]
    pub fn for_values(values: &[i64], colors: &[u32]) -> Result<CategoricNumeric, Refusal>
        ensures { result ≡ for_values values.now colors.now }
    {
        values_refusal(values.len(), colors.len())?;
        let keys = categoric_lists::list_keys(values);
        create(&keys[..values.len()], colors)
    }

    // The same with the colours of a ramp.
    // A function beside the list's: a ramp is never refused for its count of colours (9), and its colours are made after the refusals.
    #[inline(always)]
    #[tactic(auto, using(crate::proofs::Making::values_ramp_refused))]
    pub fn for_values_from_ramp(
        values: &[i64],
        cmap: &[u32; 256],
    ) -> Result<CategoricNumeric, Refusal>
        ensures { result ≡ for_values_from_ramp values.now cmap.now }
    {
        let count = values.len();
        many_refusal(count)?;
        let keys = categoric_lists::list_keys(values);
        let words = colormap::ramp_colors(cmap, count);
        create(&keys[..count], &words[..count])
    }

    // A category for each whole number of a range, with the colours of a list.
    #[inline(always)]
    #[tactic(auto, using(categoric_lists::proofs::Numbers::back, crate::proofs::Making::range_refused))]
    pub fn for_value_range(
        start: i64,
        end: i64,
        colors: &[u32],
    ) -> Result<CategoricNumeric, Refusal>
        ensures { result ≡ for_value_range start end colors.now }
    {
        value_range_refusal(start, end, colors.len())?;
        let count = categoric_lists::key_count(start, end);
        let keys = categoric_lists::range_keys(start, count);
        create(&keys[..count], colors)
    }

    // The same with the colours of a ramp.
    #[inline(always)]
    #[tactic(auto, using(categoric_lists::proofs::Numbers::back, crate::proofs::Making::range_ramp_refused))]
    pub fn for_value_range_from_ramp(
        start: i64,
        end: i64,
        cmap: &[u32; 256],
    ) -> Result<CategoricNumeric, Refusal>
        ensures { result ≡ for_value_range_from_ramp start end cmap.now }
    {
        wide_refusal(start, end)?;
        let count = categoric_lists::key_count(start, end);
        let keys = categoric_lists::range_keys(start, count);
        let words = colormap::ramp_colors(cmap, count);
        create(&keys[..count], &words[..count])
    }
}

// ---- what is refused of values

#[tactic(auto, unfolding(crate::specs::Made::many_refusal, crate::specs::Made::values_refusal))]
fn values_refusal(values: usize, colors: usize) -> Result<(), Refusal>
    ensures { result ≡ values_refusal values colors Done }
{
    if values > 256 {
        return Err(Refusal::TooManyCategories);
    }
    if values != colors {
        return Err(Refusal::ColorCountDiffers);
    }
    Ok(())
}

#[tactic(auto, unfolding(crate::specs::Made::many_refusal))]
fn many_refusal(count: usize) -> Result<(), Refusal>
    ensures { result ≡ many_refusal count Done }
{
    if count > 256 {
        return Err(Refusal::TooManyCategories);
    }
    Ok(())
}

// ---- what is refused of a range

#[tactic(auto, using(categoric_lists::proofs::Numbers::back, crate::proofs::Making::wide_stopped, crate::proofs::Making::wide_cleared), unfolding(crate::specs::Made::value_range_refusal))]
fn value_range_refusal(start: i64, end: i64, colors: usize) -> Result<(), Refusal>
    ensures { result ≡ value_range_refusal start end colors Done }
{
    wide_refusal(start, end)?;
    if categoric_lists::count_is(categoric_lists::range_count(start, end), colors) {
        return Ok(());
    }
    Err(Refusal::ColorCountDiffers)
}

#[tactic(auto, using(categoric_lists::proofs::Numbers::back), unfolding(crate::specs::Made::wide_refusal))]
fn wide_refusal(start: i64, end: i64) -> Result<(), Refusal>
    ensures { result ≡ wide_refusal start end Done }
{
    if categoric_lists::too_wide(start, end) {
        return Err(Refusal::RangeTooWide);
    }
    if categoric_lists::range_count(start, end) > 256 {
        return Err(Refusal::TooManyCategories);
    }
    Ok(())
}

// ---- what all builders do once the counts are right: inlined, since a record that a call returns has room in each frame

// The record of some keys with their colours.
#[inline(always)]
#[tactic(auto, unfolding(crate::specs::Made::record_unless))]
fn create(keys: &[i64], colors: &[u32]) -> Result<CategoricNumeric, Refusal>
    requires { (length keys.now ≤ 256) × (length keys.now ≤ length colors.now) }
    ensures { result ≡ record_unless (keys_refusal keys.now) keys.now colors.now }
{
    categoric_lists::keys_refusal(keys)?;
    Ok(new(keys, colors))
}

// Puts the categories in one after the other.
#[inline(always)]
fn new(given: &[i64], words: &[u32]) -> CategoricNumeric
    requires { (length given.now ≤ 256) × (length given.now ≤ length words.now) }
    ensures { result ≡ record_of (categories given.now words.now) }
{
    let mut keys = [0i64; 256];
    let mut colors = [0u32; 256];
    let mut count: usize = 0;
    for (i, key) in given.iter().enumerate() {
        count = sorted::insert(&mut keys, &mut colors, count, *key, words[i]);
    }
    with_lookup(keys, colors, count)
}

// The record of some categories, with their table.
#[inline(always)]
pub fn with_lookup(keys: [i64; 256], colors: [u32; 256], count: usize) -> CategoricNumeric
    requires { count ≤ 256 }
    ensures { result ≡ record {
      keys = keys;
      colors = colors;
      count = count;
      lookup = padded 0 513 (table (take count keys) (take count colors));
      lookup_count = table_size (take count keys);
    } }
{
    let lookup_count = lookup_size(&keys[..count]);
    let lookup = table::create_fast_lookup(&keys[..count], &colors[..count], lookup_count);
    CategoricNumeric {
        keys,
        colors,
        count,
        lookup,
        lookup_count,
    }
}

// How many words the table of some keys has, 0 where they have none.
#[tactic(auto, using(crate::proofs::Sizes::table_sizes))]
fn lookup_size(keys: &[i64]) -> usize
    ensures { result ≡ table_size keys.now }
{
    if keys.is_empty() {
        return 0;
    }
    if table::smallest(keys) < 0 {
        return 0;
    }
    let most = table::largest(keys);
    if most > CategoricNumeric::MAX_LOOKUP_SIZE {
        return 0;
    }
    most as usize + 1
}

// ---- any use of a record

// 16: a stored count above capacity.
#[tactic(auto, unfolding(crate::specs::Made::categoric_refusal))]
pub fn categoric_refusal(count: usize, lookup_count: usize) -> Result<(), Refusal>
    ensures { result ≡ categoric_refusal count lookup_count }
{
    if count > 256 {
        return Err(Refusal::CountAboveCapacity);
    }
    if lookup_count > 513 {
        return Err(Refusal::CountAboveCapacity);
    }
    Ok(())
}

// Absent low and high take nodata.
pub fn unmappable_colors(config: MappingConfig) -> UnmappableColors
    ensures { result ≡ categoric_colors config }
{
    let nodata = config.nodata_color;
    colormapper::compute_unmappable_colors(config, nodata, nodata)
}
