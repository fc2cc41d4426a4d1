// Every painting of a row's samples, and its words in their places.
ghost use Rattle.std.specs.Prelude.{◌≡◌, ◌+◌, ◌≤◌, take};
ghost use Rattle.legend.specs.Painters.{painter};
ghost use Rattle.legend_view.specs.Borrowed.{borrowed_legend};
ghost use Rattle.replay_paintings.specs.Samples.{sample_type, samples_as};
ghost use Rattle.replay_paintings.specs.Paintings.{color_or_number, value_words, plain_words, lane_words, with_lanes, with_paintings, paintings_of};

use crate::{LaneWords, Paintings, raster, sample};
use legend::Legend;
use legend_view::View;
use refusal::Refusal;
use replay_rows::{part, place};

// A sample's colour, or the number of the refusal.
pub fn color_or_number(color: Result<u32, Refusal>) -> u32
    ensures { result ≡ color_or_number color }
{
    match color {
        Ok(word) => word,
        Err(why) => why.number(),
    }
}

// Each by itself.
#[tactic(auto, using(replay_rows::proofs::Stored::storing))]
fn values(view: View<'_>, samples: [f32; 40], count: usize, nodata: Option<f32>) -> [u32; 40]
    requires { count ≤ 40 }
    ensures { result ≡ value_words (borrowed_legend view.entry) nodata (take count samples) }
{
    let mut words = [0u32; 40];
    for i in 0..count {
        let color = legend_pixel::color_for_value(view, samples[i], nodata);
        words[i] = color_or_number(color);
    }
    words
}

// By the painter of their type, plainly and in lanes.
fn plain(view: View<'_>, row: &[u32; 1680], count: usize, nodata: Option<f32>) -> [u32; 40]
    requires { count ≤ 40 }
    ensures { result ≡ plain_words (painter (borrowed_legend view.entry) nodata) (samples_as (sample_type row.now) count row.now) }
{
    match row[place::SAMPLE_TYPE] {
        0 => raster::plain(view, &part::floats(row)[..count], nodata),
        1 => raster::plain(view, &part::bytes(row, place::SAMPLES)[..count], nodata),
        _ => raster::plain(view, &part::shorts(row)[..count], nodata),
    }
}

fn lanes(
    view: View<'_>,
    lanes: usize,
    row: &[u32; 1680],
    count: usize,
    nodata: Option<f32>,
) -> LaneWords
    requires { count ≤ 40 }
    ensures { result ≡ lane_words lanes (painter (borrowed_legend view.entry) nodata) (samples_as (sample_type row.now) count row.now) }
{
    match row[place::SAMPLE_TYPE] {
        0 => raster::lanes(view, lanes, &part::floats(row)[..count], nodata),
        1 => raster::lanes(
            view,
            lanes,
            &part::bytes(row, place::SAMPLES)[..count],
            nodata,
        ),
        _ => raster::lanes(view, lanes, &part::shorts(row)[..count], nodata),
    }
}

pub fn painted(legend: &Legend, row: &[u32; 1680]) -> Paintings
    ensures { result ≡ paintings_of legend.now row.now }
{
    let view = legend_view::view_of(legend);
    let samples = sample::floats(row);
    let count = words::at_most(row[place::SAMPLE_COUNT], 40);
    let none = sample::nodata(row);
    let values = values(view, samples, count, none);
    let plain = plain(view, row, count, none);
    let lanes_4 = lanes(view, 4, row, count, none);
    let lanes_8 = lanes(view, 8, row, count, none);
    let lanes_16 = lanes(view, 16, row, count, none);
    Paintings {
        values,
        plain,
        lanes_4,
        lanes_8,
        lanes_16,
    }
}

fn with_lanes(row: [u32; 1680], lanes: LaneWords, at: usize, kept: usize) -> [u32; 1680]
    requires { (at + 40 ≤ 1680) × (kept + 16 ≤ 1680) }
    ensures { result ≡ with_lanes lanes at kept row }
{
    let words = lanes.words;
    let scratch = lanes.scratch;
    let with_words = part::put(row, at, &words);
    part::put(with_words, kept, &scratch)
}

pub fn with_paintings(row: [u32; 1680], paintings: Paintings) -> [u32; 1680]
    ensures { result ≡ with_paintings paintings row }
{
    let values = paintings.values;
    let plain = paintings.plain;
    let lanes_4 = paintings.lanes_4;
    let lanes_8 = paintings.lanes_8;
    let lanes_16 = paintings.lanes_16;
    let with_values = part::put(row, place::VALUES, &values);
    let with_plain = part::put(with_values, place::PLAIN, &plain);
    let with_4 = with_lanes(with_plain, lanes_4, place::LANES_4, place::SCRATCH_4);
    let with_8 = with_lanes(with_4, lanes_8, place::LANES_8, place::SCRATCH_8);
    with_lanes(with_8, lanes_16, place::LANES_16, place::SCRATCH_16)
}
