// The whole range of a legend's values (docs/RULES.md, "Painting").
#![tactic(auto)]

ghost use Rattle.std.specs.Prelude.{◌≡◌};
ghost use Rattle.refusal.specs.Outcome.{Done};
ghost use Rattle.categoric_lists.specs.Keys.{keys_refusal};
ghost use Rattle.legend.specs.Record.{stored_refusal};
ghost use Rattle.legend_range.specs.ValueRanges.{bands_range, keys_range, keys_in, range_in, total_range_refusal, total_value_range};

use banded_columns::LegendBand;
use banded_lists::ValueRange;
use categoric_build::table;
use legend::{Legend, LegendKind};
use refusal::Refusal;

// The whole range of a legend's values.
#[tactic(auto, unfolding(crate::specs::ValueRanges::total_value_range))]
pub fn total_value_range(legend: &Legend) -> Result<ValueRange, Refusal>
    ensures { result ≡ total_value_range legend.now }
{
    total_range_refusal(legend)?;
    Ok(range_of(legend))
}

// 16, then 17 for a stored key.
#[tactic(auto, unfolding(crate::specs::ValueRanges::total_range_refusal))]
pub fn total_range_refusal(legend: &Legend) -> Result<(), Refusal>
    ensures { result ≡ total_range_refusal legend.now }
{
    legend.stored_refusal()?;
    key_refusal(legend)
}

#[tactic(auto, unfolding(categoric_lists::specs::Keys::outside_from))]
fn key_refusal(legend: &Legend) -> Result<(), Refusal>
    requires { stored_refusal legend.now ≡ Done }
    ensures { result ≡ keys_refusal (keys_in legend.now.kind legend.now) }
{
    match legend.kind {
        LegendKind::Linear => Ok(()),
        LegendKind::Banded => Ok(()),
        LegendKind::CategoricNumeric => {
            let keys: &[i64] = &legend.categoric.keys;
            categoric_lists::keys_refusal(&keys[..legend.categoric.count])
        }
    }
}

// The range of a legend that is not refused.
pub fn range_of(legend: &Legend) -> ValueRange
    requires { total_range_refusal legend.now ≡ Done }
    ensures { result ≡ range_in legend.now.kind legend.now }
{
    match legend.kind {
        LegendKind::Linear => ValueRange {
            start: legend.linear.start,
            end: legend.linear.end,
        },
        LegendKind::Banded => {
            let bands: &[LegendBand] = &legend.banded.bands;
            bands_range(&bands[..legend.banded.count])
        }
        LegendKind::CategoricNumeric => {
            let keys: &[i64] = &legend.categoric.keys;
            keys_range(&keys[..legend.categoric.count])
        }
    }
}

// The first start and the last end, or 0 and 0.
#[tactic(auto, using(crate::proofs::Ranging::no_values, crate::proofs::Ranging::some_bands))]
fn bands_range(bands: &[LegendBand]) -> ValueRange
    ensures { result ≡ bands_range bands.now }
{
    if bands.is_empty() {
        return ValueRange {
            start: 0.0,
            end: 0.0,
        };
    }
    let first = bands[0];
    let last = bands[bands.len() - 1];
    ValueRange {
        start: first.start,
        end: last.end,
    }
}

// The smallest and the largest key, or 0 and 0.
#[tactic(auto, using(crate::proofs::Ranging::no_values))]
fn keys_range(keys: &[i64]) -> ValueRange
    requires { keys_refusal keys.now ≡ Done }
    ensures { result ≡ keys_range keys.now }
{
    if keys.is_empty() {
        return ValueRange {
            start: 0.0,
            end: 0.0,
        };
    }
    ValueRange {
        start: table::smallest(keys) as f32,
        end: table::largest(keys) as f32,
    }
}
