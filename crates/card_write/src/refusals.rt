// What the writer refuses, from the record and the lengths of title and buffer.
ghost use Rattle.std.specs.Prelude.{◌≡◌, ◌≤◌, length, take};
ghost use Rattle.refusal.specs.Outcome.{Done};
ghost use Rattle.legend.specs.Record.{stored_refusal};
ghost use Rattle.card_layout.specs.Stored.{same_words, table_of_keys, in_order};
ghost use Rattle.card_layout.specs.Refusals.{bounds_refusal};
ghost use Rattle.card_write.specs.forms.Length.{entries_length, lengths_refusal};

use catgegoric::CategoricNumeric;
use legend::{Legend, LegendKind};
use refusal::Refusal;

// 16; 7; 20, in this order.
#[tactic(auto, unfolding(crate::specs::forms::Length::lengths_refusal, crate::specs::forms::Length::card_length))]
pub fn lengths_refusal(legend: Legend, title: usize, capacity: usize) -> Result<(), Refusal>
    ensures { result ≡ lengths_refusal title legend capacity }
{
    legend.stored_refusal()?;
    if !in_order(legend) {
        return Err(Refusal::CountAboveCapacity);
    }
    bounds_refusal(legend)?;
    if title > 255 {
        return Err(Refusal::CardTooLong);
    }
    if capacity < 22 + title + entries_length(legend) {
        return Err(Refusal::CardTooLong);
    }
    Ok(())
}

#[tactic(auto, unfolding(card_layout::specs::Stored::in_order))]
fn in_order(legend: Legend) -> bool
    requires { stored_refusal legend ≡ Done }
    ensures { result ≡ in_order legend }
{
    match legend.kind {
        LegendKind::Linear => true,
        LegendKind::Banded => true,
        LegendKind::CategoricNumeric => {
            let categoric = legend.categoric;
            card_layout::keys_in_order(&categoric.keys, categoric.count) && table_of_keys(categoric)
        }
    }
}

// Whether the table is what the keys give: it is made anew, and compared.
fn table_of_keys(categoric: CategoricNumeric) -> bool
    requires { categoric.count ≤ 256 }
    ensures { result ≡ table_of_keys categoric }
{
    let keys = categoric.keys;
    let colors = categoric.colors;
    let made = catgegoric::with_lookup(keys, colors, categoric.count);
    if categoric.lookup_count != made.lookup_count {
        return false;
    }
    let words = categoric.lookup;
    let others = made.lookup;
    same_words(&words, &others, made.lookup_count)
}

fn same_words(words: &[u32; 513], others: &[u32; 513], n: usize) -> bool
    requires { (n ≤ 513) × (length words.now ≡ 513) × (length others.now ≡ 513) }
    ensures { result ≡ same_words (take n words.now) (take n others.now) }
{
    for i in 0..n {
        if words[i] != others[i] {
            return false;
        }
    }
    true
}

fn bounds_refusal(legend: Legend) -> Result<(), Refusal>
    ensures { result ≡ bounds_refusal legend }
{
    let kind = legend.kind;
    match kind {
        LegendKind::Linear => {
            let linear = legend.linear;
            linear::range_refusal(linear.start, linear.end)
        }
        LegendKind::Banded => Ok(()),
        LegendKind::CategoricNumeric => Ok(()),
    }
}

pub fn entries_length(legend: Legend) -> usize
    requires { stored_refusal legend ≡ Done }
    ensures byte_count { result ≡ entries_length legend }
    ensures upper_bound { result ≤ 3072 }
{
    let kind = legend.kind;
    match kind {
        LegendKind::Linear => 1032,
        LegendKind::Banded => {
            let banded = legend.banded;
            12 * banded.count
        }
        LegendKind::CategoricNumeric => {
            let categoric = legend.categoric;
            12 * categoric.count
        }
    }
}
