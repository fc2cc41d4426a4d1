// A first run: paints two fields of weather by three legends, plainly and in lanes, compares the paintings, and writes each as
// a picture with its key into the folder that it runs in.
#![tactic(auto)]

mod field;
mod legends;
mod map;
mod png;
mod say;
mod scale;

use field::Field;
use legend::Legend;
use png::Picture;
use refusal::Refusal;
use std::rt::Files;
use std::{fs, io};

// One map: painted, compared, written and told of.
fn show<R: Files + Print + Eprint>(
    rt: &R,
    name: &str,
    made: Result<Legend, Refusal>,
    field: Field,
) -> io::Result<()> {
    let legend = match made {
        Ok(legend) => legend,
        Err(why) => return say::refused(rt, why),
    };
    match draw(rt, name, legend, field) {
        Ok(agree) => say::map(rt, name, agree),
        Err(error) => say::unwritten(rt, name, error),
    }
}

// Writes a map with its key, and answers whether its paintings agree.
fn draw<R: Files + Print>(rt: &R, name: &str, legend: Legend, field: Field) -> io::Result<bool> {
    let file = fs::create(rt, name)?;
    let mut picture = Picture::begin(file)?;
    let agree = map::rows(rt, &mut picture, legend, field)?;
    map::key(rt, &mut picture, legend, legends::scale(field))?;
    picture.end()?;
    Ok(agree)
}

fn main(rt: HostRuntime) -> io::Result<()> {
    println!(rt; "two fields of 256 by 160 samples")?;
    show(
        &rt,
        "temperature_linear.png",
        legends::temperature_linear(),
        Field::Temperature,
    )?;
    show(
        &rt,
        "temperature_banded.png",
        legends::temperature_banded(),
        Field::Temperature,
    )?;
    show(
        &rt,
        "rain_categoric.png",
        legends::rain_categoric(),
        Field::Rain,
    )
}
