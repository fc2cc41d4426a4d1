// The lists of a row, in the arrays that builders and records take.
ghost use Rattle.std.specs.Prelude.{◌≡◌, ◌<◌, pos};
ghost use Rattle.lists.specs.Padded.{padded};
ghost use Rattle.lists.specs.Tabulate.{tabulate};
ghost use Rattle.words.specs.Values.{whole_of};
ghost use Rattle.replay_rows.specs.Parts.{values_at, words_at};
ghost use Rattle.banded_lists.specs.Padded.{padded_bands};
ghost use Rattle.replay_legends.specs.Lists.{row_range, row_ranges, row_band};

use banded_columns::LegendBand;
use banded_lists::{ValueRange, ValueRanges};
use replay_rows::{part, place};

fn range(row: &[u32; 1680], i: usize) -> ValueRange
    requires { i < 16 }
    ensures { result ≡ row_range row.now i }
{
    ValueRange {
        start: words::float(row[place::NUMBERS + 2 * i]),
        end: words::float(row[place::NUMBERS + 1 + 2 * i]),
    }
}

#[tactic(auto, using(replay_rows::proofs::Stored::storing), unfolding(crate::specs::Lists::row_ranges))]
pub fn ranges(row: &[u32; 1680]) -> ValueRanges
    ensures { result ≡ row_ranges row.now }
{
    let none = ValueRange {
        start: 0.0,
        end: 0.0,
    };
    let mut ranges = [none; 64];
    for i in 0..16 {
        ranges[i] = range(row, i);
    }
    ValueRanges {
        ranges,
        count: words::at_most(row[place::COUNT], 16),
    }
}

fn band(row: &[u32; 1680], i: usize) -> LegendBand
    requires { i < 16 }
    ensures { result ≡ row_band row.now i }
{
    let values = range(row, i);
    LegendBand {
        start: values.start,
        end: values.end,
        color: row[place::COLORS + i],
    }
}

#[tactic(auto, using(replay_rows::proofs::Stored::storing))]
pub fn bands(row: &[u32; 1680]) -> [LegendBand; 64]
    ensures { result ≡ padded_bands (tabulate 16 (row_band row.now)) }
{
    let none = LegendBand {
        start: 0.0,
        end: 0.0,
        color: 0,
    };
    let mut bands = [none; 64];
    for i in 0..16 {
        bands[i] = band(row, i);
    }
    bands
}

#[tactic(auto, using(replay_rows::proofs::Stored::stored_front))]
pub fn keys(row: &[u32; 1680]) -> [i64; 256]
    ensures { result ≡ padded (pos 0) 256 (values_at whole_of 32 16 row.now) }
{
    let mut keys = [0i64; 256];
    keys[..16].copy_from_slice(&part::keys(row));
    keys
}

#[tactic(auto, using(replay_rows::proofs::Stored::stored_front))]
pub fn colors(row: &[u32; 1680]) -> [u32; 256]
    ensures { result ≡ padded 0 256 (words_at 16 16 row.now) }
{
    let mut colors = [0u32; 256];
    colors[..16].copy_from_slice(&part::words_at(row, place::COLORS));
    colors
}

#[tactic(auto, using(replay_rows::proofs::Stored::stored_front))]
pub fn table(row: &[u32; 1680]) -> [u32; 513]
    ensures { result ≡ padded 0 513 (words_at 64 16 row.now) }
{
    let mut table = [0u32; 513];
    table[..16].copy_from_slice(&part::words_at(row, place::TABLE));
    table
}
