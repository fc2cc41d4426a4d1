// Cards, written and read.
ghost use Rattle.refusal.specs.Outcome.{Done};
ghost use Rattle.std.specs.Prelude.{◌≡◌};
ghost use Rattle.card_read.specs.Reading.{legend_of_card, title_of_card};
ghost use Rattle.c_records.specs.Records.{made_to_c};
ghost use Rattle.c_cards.specs.Cards.{WritingOutcome, title_part};

use c_cards::{LegendTitlePart, LegendWrittenCard};
use c_records::record::{LegendMade, LegendRecord};

// The card of a legend, in the first bytes of a buffer. Once a legend, so the record comes by value: the header's function takes a pointer.
#[unsafe(no_mangle)]
pub extern "C" fn legend_record_write_card(
    legend: LegendRecord,
    title: &[u8],
    buffer: &mut [u8],
) -> LegendWrittenCard
    ensures { WritingOutcome title.now legend buffer.old result buffer.new }
{
    c_cards::legend_record_write_card(legend, title, buffer)
}

// The legend on a card.
#[unsafe(no_mangle)]
pub extern "C" fn legend_read_card(card: &[u8]) -> LegendMade
    ensures { result ≡ made_to_c Done (legend_of_card card.now) }
{
    c_cards::legend_read_card(card)
}

// The title on a card: an exported call cannot return a part of it, so it returns the part's place.
#[unsafe(no_mangle)]
pub extern "C" fn legend_card_title_part(card: &[u8]) -> LegendTitlePart
    ensures { result ≡ title_part (title_of_card card.now) }
{
    c_cards::legend_card_title_part(card)
}
