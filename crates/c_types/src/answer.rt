// What a call answers.
ghost use Rattle.std.specs.Prelude.{◌≡◌};
ghost use Rattle.c_types.specs.Answers.{answer_to_c, with_index};

use refusal::Refusal;

// A refusal's number, 0 where nothing is refused, and its index: `indexed` is 1 where the table of refusals names one.
#[repr(C)]
#[derive(Clone, Copy)]
pub struct LegendAnswer {
    pub number: u32,
    pub indexed: u32,
    pub index: usize,
}

// An answer as C reads it: a Result does not pass to C.
pub fn to_c(a: Result<(), Refusal>) -> LegendAnswer
    ensures { result ≡ answer_to_c a }
{
    let number = refusal::answer_number(a);
    with_index(number, refusal::answer_index(a))
}

fn with_index(number: u32, i: Option<usize>) -> LegendAnswer
    ensures { result ≡ with_index number i }
{
    LegendAnswer {
        number,
        indexed: i.is_some() as u32,
        index: i.unwrap_or(0),
    }
}
