// The refusals of docs/RULES.md: the error of every call that can refuse.
#![tactic(auto)]

ghost use Rattle.std.specs.Prelude.{◌≡◌};
ghost use Rattle.refusal.specs.Table.{number_of, index_of, answer_number, answer_index};

// One case for each number of the table, in its order, and one for each refusal of the interface for C. An index is held where the table names one.
#[derive(Clone, Copy, PartialEq, Eq, Debug)]
pub enum Refusal {
    EmptyText,
    NotHexColor,
    NotHexByte(usize),
    TooFewColors,
    TooManyColors,
    NoSuchPalette,
    StartAboveEnd,
    TooManyBands,
    ColorCountDiffers,
    EmptyRange(usize),
    TooManyCategories,
    RangeTooWide,
    OutputLengthDiffers,
    NoSuchLaneCount,
    ScratchTooShort,
    CountAboveCapacity,
    KeyOutOfRange(usize),
    CardUnknown,
    CardMalformed,
    CardTooLong,
    BadFlag,
    BadKind,
}

impl Refusal {
    // The number in the table of refusals, 1 to 20; 100 and 101 of the interface for C.
    pub fn number(self) -> u32
        ensures { result ≡ number_of self }
    {
        match self {
            Refusal::EmptyText => 1,
            Refusal::NotHexColor => 2,
            Refusal::NotHexByte(_) => 3,
            Refusal::TooFewColors => 4,
            Refusal::TooManyColors => 5,
            Refusal::NoSuchPalette => 6,
            Refusal::StartAboveEnd => 7,
            Refusal::TooManyBands => 8,
            Refusal::ColorCountDiffers => 9,
            Refusal::EmptyRange(_) => 10,
            Refusal::TooManyCategories => 11,
            Refusal::RangeTooWide => 12,
            Refusal::OutputLengthDiffers => 13,
            Refusal::NoSuchLaneCount => 14,
            Refusal::ScratchTooShort => 15,
            Refusal::CountAboveCapacity => 16,
            Refusal::KeyOutOfRange(_) => 17,
            Refusal::CardUnknown => 18,
            Refusal::CardMalformed => 19,
            Refusal::CardTooLong => 20,
            Refusal::BadFlag => 100,
            Refusal::BadKind => 101,
        }
    }

    // The index of the part that was refused, where the table names one.
    pub fn index(self) -> Option<usize>
        ensures { result ≡ index_of self }
    {
        match self {
            Refusal::NotHexByte(i) | Refusal::EmptyRange(i) | Refusal::KeyOutOfRange(i) => Some(i),
            _ => None,
        }
    }
}

// The number of what a call answers: that of its refusal, and 0 where nothing is refused.
pub fn answer_number(answer: Result<(), Refusal>) -> u32
    ensures { result ≡ answer_number answer }
{
    match answer {
        Ok(()) => 0,
        Err(why) => why.number(),
    }
}

// The index of what a call answers: that of its refusal, where the table names one.
pub fn answer_index(answer: Result<(), Refusal>) -> Option<usize>
    ensures { result ≡ answer_index answer }
{
    match answer {
        Ok(()) => None,
        Err(why) => why.index(),
    }
}
