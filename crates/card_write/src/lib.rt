// Writes the card of a legend (docs/RULES.md, "Cards"): what is refused first (`refusals`), then its fields one after the other (`fields`).
#![tactic(auto)]

mod fields;
mod refusals;

ghost use Rattle.card_write.specs.Writing.{CardWriting};

use legend::Legend;
use refusal::Refusal;

// The card of a legend under a title, in the first bytes of a buffer; its length.
#[tactic(auto, using(crate::proofs::Lengths::refusal_of_lengths, crate::proofs::Lengths::length_mapped, crate::proofs::Refusing::nothing_refused))]
pub fn write(legend: Legend, title: &[u8], buffer: &mut [u8]) -> Result<usize, Refusal>
    ensures { CardWriting title.now legend buffer.old result buffer.new }
{
    refusals::lengths_refusal(legend, title.len(), buffer.len())?;
    Ok(fields::put_fields(legend, title, buffer))
}
