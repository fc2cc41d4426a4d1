// The parts of a card that the reader looks at, each a part of the card's own bytes.
ghost use Rattle.std.specs.Prelude.{◌≡◌, length};
ghost use Rattle.card_layout.specs.Fields.{after_title};

// What follows the title: nothing where the card is cut off before.
pub fn after_title(card: &[u8]) -> &[u8]
    ensures { result.now ≡ after_title card.now }
{
    if card.len() < 7 {
        return &card[0..0];
    }
    let start = 7 + card_bytes::u8_at(card, 6) as usize;
    &card[start.min(card.len())..]
}
