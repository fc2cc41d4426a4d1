// The words of a refusal and of a range of values.
ghost use Rattle.std.specs.Prelude.{◌≡◌};
ghost use Rattle.replay_calls.specs.Replies.{index_word, with_answer, with_range};

use banded_lists::ValueRange;
use refusal::Refusal;
use replay_rows::place;

// The index and 1, or 0 where there is none.
fn index_word(index: Option<usize>) -> u32
    ensures { result ≡ index_word index }
{
    match index {
        Some(i) => (i % 0xffff_ffff) as u32 + 1,
        None => 0,
    }
}

#[tactic(auto, unfolding(crate::specs::Replies::with_answer))]
pub fn with_answer(row: [u32; 1680], answer: Result<(), Refusal>) -> [u32; 1680]
    ensures { result ≡ with_answer answer row }
{
    let mut result = row;
    result[place::ANSWER] = refusal::answer_number(answer);
    result[place::INDEX] = index_word(refusal::answer_index(answer));
    result
}

// The range's bounds; in place of the first the number of its refusal.
pub fn with_range(row: [u32; 1680], range: Result<ValueRange, Refusal>) -> [u32; 1680]
    ensures { result ≡ with_range range row }
{
    let mut result = row;
    match range {
        Ok(values) => {
            result[place::RANGE] = words::bits(values.start);
            result[place::RANGE + 1] = words::bits(values.end);
        }
        Err(why) => {
            result[place::RANGE] = why.number();
        }
    }
    result
}
