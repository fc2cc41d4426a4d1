// Reads a card (docs/RULES.md, "Cards"): what is refused first (`refusals`), then the legend (`values`); and its title, as a part of its own bytes.
#![tactic(auto)]

mod parts;
mod refusals;
mod values;

ghost use Rattle.std.specs.Prelude.{◌≡◌};
ghost use Rattle.card_read.specs.Reading.{legend_of_card, title_of_card};

use legend::Legend;
use refusal::Refusal;

// The legend on a card.
#[tactic(auto, using(crate::proofs::Told::not_refused), unfolding(crate::specs::Reading::legend_of_card))]
pub fn read(card: &[u8]) -> Result<Legend, Refusal>
    ensures { result ≡ legend_of_card card.now }
{
    refusals::read_refusal(card)?;
    Ok(values::legend_in(card))
}

// The title on a card: that part of the card's own bytes, empty where the card is refused.
pub fn title(card: &[u8]) -> &[u8]
    ensures { result.now ≡ title_of_card card.now }
{
    match refusals::read_refusal(card) {
        Err(_) => &card[0..0],
        Ok(()) => {
            let end = 7 + card_bytes::u8_at(card, 6) as usize;
            &card[7..end]
        }
    }
}
