// A row of stored answers worked out anew: what it asks, and our answers in their places (crates/run_replay/README.md).
#![tactic(auto)]

ghost use Rattle.std.specs.Prelude.{◌≡◌};
ghost use Rattle.replay_rows.specs.Parts.{first_difference};
ghost use Rattle.replay_worked.specs.Worked.{legend_row, worked_row};

use legend::Legend;
use replay_calls::{record, reply};
use replay_paintings::paint;
use replay_rows::kind::RowKind;
use replay_rows::{part, place};

// A row of a legend. Beside a refusal it is the empty legend that is painted: every colour is 0.
#[tactic(auto, unfolding(crate::specs::Worked::legend_row), using(replay_legends::proofs::Asking::answered))]
fn legend_row(row: &[u32; 1680]) -> [u32; 1680]
    ensures { result ≡ legend_row row.now }
{
    let made = replay_legends::build::made(row);
    let legend = made.unwrap_or(Legend::empty());
    let colors = legend_apply::color_list(&legend).unwrap_or([0u32; 256]);
    let paintings = paint::painted(&legend, row);
    let answered = reply::with_answer(part::asked(row), made.and(Ok(())));
    let ranged = reply::with_range(answered, legend_range::total_value_range(&legend));
    let recorded = record::with_record(ranged, legend);
    let listed = part::put(recorded, place::COLOR_LIST, &colors);
    paint::with_paintings(listed, paintings)
}

// By its kind. A kind that is none has no answers.
#[tactic(auto, unfolding(crate::specs::Worked::worked_row))]
pub fn worked(row: &[u32; 1680]) -> [u32; 1680]
    ensures { result ≡ worked_row row.now }
{
    match RowKind::from_word(row[place::KIND]) {
        Some(RowKind::Palette) => replay_calls::palette(row),
        Some(RowKind::HexText) => replay_calls::hex(row),
        Some(RowKind::RampLookups) => replay_calls::lookups(row),
        Some(RowKind::WholeNumbers) => replay_calls::truncated(row),
        Some(_) => legend_row(row),
        None => part::asked(row),
    }
}

// The first place in which a row and what we make of it differ, 1680 where they are the same.
pub fn difference(row: &[u32; 1680]) -> usize
    ensures { result ≡ first_difference row.now (worked_row row.now) }
{
    let ours = worked(row);
    part::first_difference(row, &ours)
}
