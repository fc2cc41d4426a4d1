// The two fields of samples, 256 wide and 160 high: temperature with a patch of no data, and rain with dry gaps.

#[derive(Clone, Copy)]
pub enum Field {
    Temperature,
    Rain,
}

// What stands for no data in the temperature field. In the rain field it is 0, by the legend's settings.
const NO_TEMPERATURE: f32 = -9999.0;

pub fn nodata(field: Field) -> Option<f32> {
    match field {
        Field::Temperature => Some(NO_TEMPERATURE),
        Field::Rain => None,
    }
}

// One row of samples.
pub fn row(field: Field, y: u8) -> [f32; 256] {
    let mut samples = [0.0f32; 256];
    for x in 0..=255u8 {
        samples[x as usize] = sample(field, x, y);
    }
    samples
}

fn sample(field: Field, x: u8, y: u8) -> f32 {
    let u = (x as f32) / 255.0;
    let v = (y as f32) / 159.0;
    match field {
        Field::Temperature => {
            if in_patch(x, y) {
                return NO_TEMPERATURE;
            }
            temperature(u, v)
        }
        Field::Rain => rain(u, v),
    }
}

// Whether a pixel lies in the round patch of no data.
fn in_patch(x: u8, y: u8) -> bool {
    let across = (x as f32) - 196.0;
    let down = (y as f32) - 100.0;
    across * across + down * down < 324.0
}

// Colder to the north, with warm and cold hills, in degrees.
fn temperature(u: f32, v: f32) -> f32 {
    let slope = 33.0 * v - 6.0 + 7.0 * u * (1.0 - u) * (1.0 + v);
    let warm = 18.0 * hill(u, v, 0.27, 0.62, 16.0)
        + 9.0 * hill(u, v, 0.9, 0.85, 24.0)
        + 6.0 * hill(u, v, 0.5, 0.1, 40.0);
    let cold = 14.0 * hill(u, v, 0.7, 0.3, 14.0)
        + 7.0 * hill(u, v, 0.1, 0.15, 30.0)
        + 5.0 * hill(u, v, 0.52, 0.78, 50.0);
    slope + warm - cold
}

// A front, a band behind it, and showers, in millimetres: 0 where dry, 40 at most.
fn rain(u: f32, v: f32) -> f32 {
    let front = 26.0 * ridge(v - 0.1 - u + 0.45 * u * u, 260.0) * (0.35 + 2.6 * u * (1.0 - u));
    let behind = 14.0 * ridge(v - 0.55 - 0.9 * u + 0.4 * u * u, 900.0);
    wet(front + behind + west_showers(u, v) + east_showers(u, v) - 7.0)
}

fn west_showers(u: f32, v: f32) -> f32 {
    48.0 * hill(u, v, 0.2, 0.62, 160.0)
        + 40.0 * hill(u, v, 0.33, 0.82, 300.0)
        + 40.0 * hill(u, v, 0.42, 0.36, 400.0)
}

fn east_showers(u: f32, v: f32) -> f32 {
    34.0 * hill(u, v, 0.8, 0.14, 220.0)
        + 30.0 * hill(u, v, 0.62, 0.86, 500.0)
        + 26.0 * hill(u, v, 0.9, 0.78, 350.0)
}

// From 0.2 to 40, or 0.
fn wet(amount: f32) -> f32 {
    if amount < 0.2 {
        return 0.0;
    }
    if amount > 40.0 {
        return 40.0;
    }
    amount
}

// 1 at a centre, and less with the square of the distance from it; the map is 1.6 times as wide as high.
fn hill(u: f32, v: f32, centre_u: f32, centre_v: f32, steepness: f32) -> f32 {
    let across = 1.6 * (u - centre_u);
    let down = v - centre_v;
    1.0 / (1.0 + steepness * (across * across + down * down))
}

// The same for the distance from a line.
fn ridge(distance: f32, steepness: f32) -> f32 {
    1.0 / (1.0 + steepness * distance * distance)
}
