// The samples of a row and its nodata value, as f32.
ghost use Rattle.std.specs.Prelude.{◌≡◌};
ghost use Rattle.replay_rows.specs.Parts.{values_at};
ghost use Rattle.replay_paintings.specs.Samples.{is_given, sample_of, sample_type, nodata_of};

use replay_rows::place;

// Whether a nodata value is given.
fn is_given(row: &[u32; 1680]) -> bool
    ensures { result ≡ is_given row.now }
{
    row[place::FLAGS] / 8 % 2 == 1
}

// The f32 that a word stands for, by the samples' type.
fn float_of(number: u32, word: u32) -> f32
    ensures { result ≡ sample_of number word }
{
    match number {
        0 => words::float(word),
        1 => cast::u8_to_f32(words::byte(word)),
        _ => cast::i16_to_f32(words::short(word)),
    }
}

pub fn nodata(row: &[u32; 1680]) -> Option<f32>
    ensures { result ≡ nodata_of row.now }
{
    if is_given(row) {
        Some(float_of(row[place::SAMPLE_TYPE], row[place::NODATA]))
    } else {
        None
    }
}

#[tactic(auto, using(replay_rows::proofs::Stored::storing))]
pub fn floats(row: &[u32; 1680]) -> [f32; 40]
    ensures { result ≡ values_at (sample_of (sample_type row.now)) 80 40 row.now }
{
    let number = row[place::SAMPLE_TYPE];
    let mut floats = [0.0f32; 40];
    for i in 0..40 {
        floats[i] = float_of(number, row[place::SAMPLES + i]);
    }
    floats
}
