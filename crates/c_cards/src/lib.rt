// The calls for C and Rust (include/legend.h) that write and read cards.
#![tactic(auto)]

ghost use Rattle.std.specs.Prelude.{◌≡◌};
ghost use Rattle.refusal.specs.Outcome.{Done};
ghost use Rattle.card_read.specs.Reading.{legend_of_card, title_of_card};
ghost use Rattle.c_records.specs.Records.{made_to_c};
ghost use Rattle.c_cards.specs.Cards.{WritingOutcome, title_part};

use c_records::record;
use c_records::record::{LegendMade, LegendRecord};
use c_types::answer::LegendAnswer;
use c_types::{answer, refusals};

// The length of a card that was written, 0 beside a refusal.
#[repr(C)]
#[derive(Clone, Copy)]
pub struct LegendWrittenCard {
    pub answer: LegendAnswer,
    pub length: usize,
}

// Where the title of a card is among its bytes.
#[repr(C)]
#[derive(Clone, Copy)]
pub struct LegendTitlePart {
    pub offset: usize,
    pub length: usize,
}

// The card of a legend, in the first bytes of a buffer. Once a legend, so the record comes by value: the header's function takes a pointer.
// The flags and the kind are refused first, then what the writer refuses.
#[tactic(auto, unfolding(crate::specs::Cards::record_refusal))]
pub fn legend_record_write_card(
    legend: LegendRecord,
    title: &[u8],
    buffer: &mut [u8],
) -> LegendWrittenCard
    ensures { WritingOutcome title.now legend buffer.old result buffer.new }
{
    if let Err(why) = refusals::legend_refusal(legend.settings, legend.kind) {
        return LegendWrittenCard {
            answer: answer::to_c(Err(why)),
            length: 0,
        };
    }
    let done = card_write::write(record::legend_from_c(legend), title, buffer);
    LegendWrittenCard {
        answer: answer::to_c(done.and(Ok(()))),
        length: done.unwrap_or(0),
    }
}

// The legend on a card.
pub fn legend_read_card(card: &[u8]) -> LegendMade
    ensures { result ≡ made_to_c Done (legend_of_card card.now) }
{
    record::made_to_c(Ok(()), card_read::read(card))
}

// The title on a card: an exported call cannot return a part of it, so it returns the part's place.
#[tactic(auto, unfolding(crate::specs::Cards::title_part))]
pub fn legend_card_title_part(card: &[u8]) -> LegendTitlePart
    ensures { result ≡ title_part (title_of_card card.now) }
{
    let title = card_read::title(card);
    let length = title.len();
    if length == 0 {
        return LegendTitlePart { offset: 0, length };
    }
    LegendTitlePart { offset: 7, length }
}
