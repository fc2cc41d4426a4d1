// The kinds of rows (crates/run_replay/README.md).
ghost use Rattle.std.specs.Prelude.{◌≡◌, ◌<◌};
ghost use Rattle.replay_rows.specs.Kinds.{kind_from, number_of};

use std::fmt;

// Single calls; legends by their builders, with bands as given among them; and records that no builder made.
#[derive(Clone, Copy, PartialEq, Eq, Debug)]
pub enum RowKind {
    Palette,
    HexText,
    RampLookups,
    WholeNumbers,
    Linear,
    EqualBands,
    ManualRanges,
    BandsGiven,
    CategoriesByValues,
    CategoriesByRange,
    LinearStored,
    CategoriesStored,
}

impl RowKind {
    // In the order of their numbers, from 0 on.
    pub const ALL: [RowKind; 12] = [
        RowKind::Palette,
        RowKind::HexText,
        RowKind::RampLookups,
        RowKind::WholeNumbers,
        RowKind::Linear,
        RowKind::EqualBands,
        RowKind::ManualRanges,
        RowKind::BandsGiven,
        RowKind::CategoriesByValues,
        RowKind::CategoriesByRange,
        RowKind::LinearStored,
        RowKind::CategoriesStored,
    ];

    // By a row's first word. From 12 on a word is no kind.
    pub fn from_word(word: u32) -> Option<RowKind>
        ensures { result ≡ kind_from word }
    {
        RowKind::ALL.get(word as usize).copied()
    }

    // The first word of its rows.
    pub fn number(self) -> usize
        ensures { (result ≡ number_of self) × (result < 12) }
    {
        self as usize
    }
}

// The name of its rows.
impl fmt::Display for RowKind {
    fn fmt<W: fmt::Write>(&self, f: &mut fmt::Formatter<W>) -> fmt::Result {
        f.write_str(match self {
            RowKind::Palette => "palettes",
            RowKind::HexText => "hex texts",
            RowKind::RampLookups => "ramp lookups",
            RowKind::WholeNumbers => "whole numbers",
            RowKind::Linear => "linear",
            RowKind::EqualBands => "equal bands",
            RowKind::ManualRanges => "manual ranges",
            RowKind::BandsGiven => "bands as given",
            RowKind::CategoriesByValues => "categories by values",
            RowKind::CategoriesByRange => "categories by range",
            RowKind::LinearStored => "linear as stored",
            RowKind::CategoriesStored => "categories as stored",
        })
    }
}
