// A map: a field painted by a legend, plainly and in lanes, and written as a picture with its key below.
use crate::field::Field;
use crate::png::Picture;
use crate::scale::Scale;
use crate::{field, say, scale};
use legend::Legend;
use std::io;
use std::io::Write;

// The 160 rows of the map. Answers whether every painting has the same words.
pub fn rows<W: Write + Drop>(
    rt: &impl Print,
    picture: &mut Picture<W>,
    legend: Legend,
    field: Field,
) -> io::Result<bool> {
    let mut agree = true;
    for y in 0..160 {
        agree &= row(rt, picture, legend, field, y)?;
    }
    Ok(agree)
}

fn row<W: Write + Drop>(
    rt: &impl Print,
    picture: &mut Picture<W>,
    legend: Legend,
    field: Field,
    y: u8,
) -> io::Result<bool> {
    let samples = field::row(field, y);
    let words = plain(rt, legend, field, &samples)?;
    let four = in_lanes(rt, legend, 4, field, &samples)?;
    let eight = in_lanes(rt, legend, 8, field, &samples)?;
    let sixteen = in_lanes(rt, legend, 16, field, &samples)?;
    let agree4 = same(rt, &words, &four, 4, y)?;
    let agree8 = same(rt, &words, &eight, 8, y)?;
    let agree16 = same(rt, &words, &sixteen, 16, y)?;
    picture.row(&words, false)?;
    Ok(agree4 & agree8 & agree16)
}

fn plain(
    rt: &impl Print,
    legend: Legend,
    field: Field,
    samples: &[f32; 256],
) -> io::Result<[u32; 256]> {
    let mut words = [0u32; 256];
    let answer = legend_apply::apply_to_data_scalar(
        &legend,
        samples,
        field::nodata(field),
        &mut words,
    );
    say::answer(rt, answer)?;
    Ok(words)
}

fn in_lanes(
    rt: &impl Print,
    legend: Legend,
    lanes: usize,
    field: Field,
    samples: &[f32; 256],
) -> io::Result<[u32; 256]> {
    let mut words = [0u32; 256];
    let mut scratch = [0u32; 16];
    let answer = legend_apply::apply_to_data_kernel(
        &legend,
        lanes,
        samples,
        field::nodata(field),
        &mut words,
        &mut scratch,
    );
    say::answer(rt, answer)?;
    Ok(words)
}

// Whether two paintings of a row have the same words; the first place where they do not is written.
fn same(
    rt: &impl Print,
    plain: &[u32; 256],
    lanes: &[u32; 256],
    count: u64,
    y: u8,
) -> io::Result<bool> {
    for x in 0..256 {
        if plain[x] != lanes[x] {
            say::differ(rt, x, y, count)?;
            return Ok(false);
        }
    }
    Ok(true)
}

// The key: the legend's colours from the lowest to the highest value, marks, and the numbers that they stand for.
pub fn key<W: Write + Drop>(
    rt: &impl Print,
    picture: &mut Picture<W>,
    legend: Legend,
    scale: Scale,
) -> io::Result<()> {
    let colors = match legend_apply::color_list(&legend) {
        Ok(colors) => colors,
        Err(why) => {
            say::refused(rt, why)?;
            [0u32; 256]
        }
    };
    let empty = scale::paper();
    let marks = scale::marks(scale);
    bar(picture, &empty, 4)?;
    bar(picture, &colors, 16)?;
    bar(picture, &marks, 3)?;
    bar(picture, &empty, 1)?;
    numbers(picture, scale)?;
    bar(picture, &empty, 2)?;
    picture.row(&empty, true)
}

// The seven rows of the numbers.
fn numbers<W: Write + Drop>(picture: &mut Picture<W>, scale: Scale) -> io::Result<()> {
    for row in 0..7 {
        picture.row(&scale::numbers(scale, row), false)?;
    }
    Ok(())
}

// Some equal rows that are not the last.
fn bar<W: Write + Drop>(
    picture: &mut Picture<W>,
    words: &[u32; 256],
    count: u32,
) -> io::Result<()> {
    for _ in 0..count {
        picture.row(words, false)?;
    }
    Ok(())
}
