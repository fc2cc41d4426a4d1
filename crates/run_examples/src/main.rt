// Runs the twelve examples of docs/RULES.md over the calls themselves. Writes a line an example: its number, then the words
// that it got, in the order of the table (crates/examples/specs/Examples.antt).
#![tactic(auto)]

mod legends;
mod say;

use color::Color;
use std::io;

// 1: G at 0.5. 2: at the one fraction where lanes differ. 3: at 1 and at a NaN.
fn lookups(rt: &impl Print) -> io::Result<()> {
    say::number(rt, 1)?;
    looked_up(rt, 0.5)?;
    say::line_end(rt)?;
    say::number(rt, 2)?;
    looked_up(rt, 65793.0 / 33554432.0)?;
    legends::painted_both_ways(
        rt,
        legends::gray_legend(0.0, 1.0, false),
        65793.0 / 33554432.0,
    )?;
    say::line_end(rt)?;
    say::number(rt, 3)?;
    looked_up(rt, 1.0)?;
    looked_up(rt, 0.0 / 0.0)?;
    say::line_end(rt)
}

// G at a fraction, plainly and in lanes.
fn looked_up(rt: &impl Print, fraction: f32) -> io::Result<()> {
    let ramp = legends::gray();
    say::word(rt, lookup::get_color(&ramp, fraction))?;
    let lanes = lookup::get_color_simd(4, &ramp, [fraction; 16]);
    say::word(rt, lanes[0])
}

// 4: linear 0 to 255. 5: linear 5 to 5.
fn linear(rt: &impl Print) -> io::Result<()> {
    say::number(rt, 4)?;
    let wide = legends::gray_legend(0.0, 255.0, false);
    legends::painted(rt, wide, -0.0001)?;
    legends::painted(rt, wide, -0.0002)?;
    say::line_end(rt)?;
    say::number(rt, 5)?;
    legends::painted(rt, legends::gray_legend(5.0, 5.0, false), 5.0)?;
    say::line_end(rt)
}

// 6: bands 0 to 1 and 2 to 3. 7: bands 0 to 0.00005 and 0.00005 to 1, also in chunks. 8: the last of eleven bands from G.
fn banded(rt: &impl Print) -> io::Result<()> {
    say::number(rt, 6)?;
    let apart = legends::two_bands(0.0, 1.0, 2.0, 3.0);
    legends::painted(rt, apart, 0.0)?;
    legends::painted(rt, apart, 1.0)?;
    legends::painted(rt, apart, 3.0)?;
    legends::painted(rt, apart, 3.5)?;
    legends::painted(rt, apart, -0.5)?;
    say::line_end(rt)?;
    say::number(rt, 7)?;
    let narrow = legends::two_bands(0.0, 0.00005, 0.00005, 1.0);
    legends::painted(rt, narrow, 0.00006)?;
    legends::painted_in_lanes(rt, narrow, 0.00006, 7.0)?;
    legends::painted_in_lanes(rt, narrow, 0.00006, 0.5)?;
    say::line_end(rt)?;
    say::number(rt, 8)?;
    legends::painted(rt, legends::eleven_bands(), 0.95)?;
    say::line_end(rt)
}

// 9: keys 2 and 5. 10: keys -1 and 5. 11: keys 7 and 7, and the largest key that has a table.
fn categoric(rt: &impl Print) -> io::Result<()> {
    say::number(rt, 9)?;
    let small = legends::two_keys(2, 5);
    legends::painted(rt, small, 3.0)?;
    legends::painted(rt, small, -0.5)?;
    legends::painted(rt, small, 5.9)?;
    legends::painted(rt, small, 6.0)?;
    say::line_end(rt)?;
    say::number(rt, 10)?;
    let signed = legends::two_keys(-1, 5);
    legends::painted(rt, signed, 3.0)?;
    legends::painted(rt, signed, -1.5)?;
    say::line_end(rt)?;
    say::number(rt, 11)?;
    let same = legends::two_keys(7, 7);
    legends::key_count(rt, same)?;
    legends::painted(rt, same, 7.0)?;
    legends::table_words(rt, legends::two_keys(1, 512))?;
    legends::table_words(rt, legends::two_keys(1, 513))?;
    say::line_end(rt)
}

// 12: hex text, and zero-is-nodata.
fn others(rt: &impl Print) -> io::Result<()> {
    say::number(rt, 12)?;
    match Color::from_hex_string(b"#+F0000") {
        Ok(color) => say::word(rt, color.to_bits())?,
        Err(why) => say::refused(rt, why)?,
    }
    legends::painted(rt, legends::gray_legend(0.0, 255.0, true), -0.0)?;
    say::line_end(rt)
}

fn main(rt: HostRuntime) -> io::Result<()> {
    lookups(&rt)?;
    linear(&rt)?;
    banded(&rt)?;
    categoric(&rt)?;
    others(&rt)?;
    say::examples(&rt, 12)
}
