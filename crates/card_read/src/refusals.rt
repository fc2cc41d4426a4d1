// What the reader refuses: 18, 19, 7, in this order.
ghost use Rattle.std.specs.Prelude.{◌≡◌, true, ◌+◌, ◌*◌, ◌≤◌, length, drop};
ghost use Rattle.lists.specs.Each.{each};
ghost use Rattle.legend.specs.declared.LegendKind.TheVariants as kind;
ghost use Rattle.card_bytes.specs.Numbers.{number_at};
ghost use Rattle.card_bytes.specs.Entries.{entries_in};
ghost use Rattle.card_layout.specs.Settings.{settings_fit};
ghost use Rattle.card_layout.specs.Entries.{canonical, bounds_canonical};
ghost use Rattle.card_layout.specs.Cards.{entries_fit_in, legend_in};
ghost use Rattle.card_layout.specs.Refusals.{bounds_refusal, known, well_formed, read_refusal};

use crate::{parts, values};
use card_bytes::{u8_at, u16_at, u32_at};
use legend::LegendKind;
use refusal::Refusal;

pub fn read_refusal(card: &[u8]) -> Result<(), Refusal>
    ensures { result ≡ read_refusal card.now }
{
    if !known(card) {
        return Err(Refusal::CardUnknown);
    }
    if !well_formed(card) {
        return Err(Refusal::CardMalformed);
    }
    bounds_refusal(card)
}

// 18: the mark, the version and the kind.
fn known(card: &[u8]) -> bool
    ensures { result ≡ known card.now }
{
    if card.len() < 6 {
        return false;
    }
    let mark = u32::from_le_bytes([card[0], card[1], card[2], 0]);
    (mark == 0x43474C) & (u16_at(card, 3) == 1) & (u8_at(card, 5) < 3)
}

// 19: everything else.
#[tactic(auto, using(crate::proofs::Found::misfits))]
fn well_formed(card: &[u8]) -> bool
    ensures { result ≡ well_formed card.now }
{
    let rest = parts::after_title(card);
    if rest.len() < 15 {
        return false;
    }
    if !settings_fit(rest) {
        return false;
    }
    let kind = LegendKind::from_number(u8_at(card, 5) as u32);
    let count = u16_at(rest, 13) as usize;
    let entries = &rest[15..];
    match kind {
        LegendKind::Linear => linear_fits(count, entries),
        LegendKind::Banded => bands_fit(count, entries),
        LegendKind::CategoricNumeric => categories_fit(count, entries),
    }
}

#[tactic(auto, unfolding(card_layout::specs::Settings::settings_fit))]
fn settings_fit(rest: &[u8]) -> bool
    requires { 15 ≤ length rest.now }
    ensures { result ≡ settings_fit (number_at 4 1 rest.now) (number_at 5 4 rest.now) (number_at 9 4 rest.now) }
{
    let flags = u8_at(rest, 4);
    let low = u32_at(rest, 5);
    let high = u32_at(rest, 9);
    (flags < 8) & ((flags % 2 == 1) | (low == 0)) & ((flags / 2 % 2 == 1) | (high == 0))
}

// ---- the entries, by kind

fn linear_fits(count: usize, entries: &[u8]) -> bool
    ensures { result ≡ entries_fit_in kind.Linear count entries.now }
{
    count == 256 && entries.len() == 1032 && bounds_canonical(entries, 0)
}

fn bands_fit(count: usize, entries: &[u8]) -> bool
    ensures { result ≡ entries_fit_in kind.Banded count entries.now }
{
    count <= 64 && entries.len() == 12 * count && each_canonical(entries, count)
}

fn categories_fit(count: usize, entries: &[u8]) -> bool
    ensures { result ≡ entries_fit_in kind.CategoricNumeric count entries.now }
{
    if count > 256 {
        return false;
    }
    if entries.len() != 12 * count {
        return false;
    }
    let keys = values::keys_in(entries, count);
    card_layout::keys_in_order(&keys, count)
}

#[tactic(auto, using(crate::proofs::Testing::testing))]
fn each_canonical(entries: &[u8], count: usize) -> bool
    requires { (count ≤ 64) × (length entries.now ≡ 12 * count) }
    ensures { result ≡ each bounds_canonical (entries_in 12 count (λ entry. entry) entries.now) }
{
    // A loop: with `all` over the places the proof does not close.
    for i in 0..count {
        if !bounds_canonical(entries, 12 * i) {
            return false;
        }
    }
    true
}

// Of the two bounds from a place on.
#[tactic(auto, using(crate::proofs::Entries::places), unfolding(card_layout::specs::Entries::bounds_canonical))]
fn bounds_canonical(entries: &[u8], at: usize) -> bool
    requires { at + 8 ≤ length entries.now }
    ensures { result ≡ bounds_canonical (drop at entries.now) }
{
    is_canonical(u32_at(entries, at)) & is_canonical(u32_at(entries, at + 4))
}

// A NaN only 7FC00000.
#[tactic(auto, using(crate::proofs::Canonical::canonical_test))]
fn is_canonical(bits: u32) -> bool
    ensures { result ≡ canonical bits }
{
    (bits == 0x7fc0_0000) | (bits % 0x8000_0000 <= 0x7f80_0000)
}

// ---- 7: of a linear card alone

fn bounds_refusal(card: &[u8]) -> Result<(), Refusal>
    requires { well_formed card.now ≡ true }
    ensures { result ≡ bounds_refusal (legend_in card.now) }
{
    if u8_at(card, 5) != 0 {
        return Ok(());
    }
    let rest = parts::after_title(card);
    linear::range_refusal(
        words::float(u32_at(rest, 15)),
        words::float(u32_at(rest, 19)),
    )
}
