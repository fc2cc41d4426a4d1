// How many rows there are of each kind, and how many of them differ.
ghost use Rattle.std.specs.Prelude.{◌≡◌, ◌<◌, if◌then◌else◌, replicate};
ghost use Rattle.run_replay.specs.Tally.{place_of, is_same, tallied, sum_to};

use replay_rows::kind::RowKind;

// A count in the place of each kind.
#[derive(Clone, Copy)]
pub struct Tally {
    pub rows: [u64; 13],
    pub differ: [u64; 13],
}

// The place of a kind: its number, and 12 for malformed rows, which have none.
pub fn place_of(kind: Option<RowKind>) -> usize
    ensures { (result ≡ place_of kind) × (result < 13) }
{
    match kind {
        Some(kind) => kind.number(),
        None => 12,
    }
}

// Whether a row is of a kind and differs nowhere.
pub fn is_same(kind: Option<RowKind>, at: usize) -> bool
    ensures { result ≡ is_same kind at }
{
    kind.is_some() && at == 1680
}

impl Tally {
    // Of no rows.
    pub fn new() -> Tally
        ensures { (result.rows ≡ replicate 13 0) × (result.differ ≡ replicate 13 0) }
    {
        Tally {
            rows: [0; 13],
            differ: [0; 13],
        }
    }

    // One more row of a kind.
    #[tactic(auto, unfolding(crate::specs::Tally::tallied))]
    pub fn note(&mut self, kind: Option<RowKind>, same: bool)
        ensures rows { self.new.rows ≡ tallied (place_of kind) self.old.rows }
        ensures differ { self.new.differ ≡ (if same then self.old.differ else tallied (place_of kind) self.old.differ) }
    {
        let at = place_of(kind);
        self.rows[at] = self.rows[at].wrapping_add(1);
        if !same {
            self.differ[at] = self.differ[at].wrapping_add(1);
        }
    }
}

#[tactic(auto, unfolding(crate::specs::Tally::sum_to))]
pub fn sum(numbers: &[u64; 13]) -> u64
    ensures { result ≡ sum_to 13 numbers.now }
{
    let mut total: u64 = 0;
    for number in numbers {
        total = total.wrapping_add(*number);
    }
    total
}
