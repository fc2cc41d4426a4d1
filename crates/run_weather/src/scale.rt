// The numbers below a key, in digits of five by seven pixels, and the marks that say where each of them stands.
ghost use Rattle.std.specs.Prelude.{◌≤◌};

// The numbers from one end of a key to the other: 0, 5, 10, .. `steps` steps, each less `below`. None has three digits.
#[derive(Clone, Copy)]
pub struct Scale {
    pub below: u8,
    pub steps: u8,
}

const PAPER: u32 = 0xFFFF_FFFF;

const INK: u32 = 0xFF00_0000;

// The digits, and the sign of a number below 0: seven rows of five pixels, from the top, and in a row from the left.
const GLYPHS: [u64; 11] = [
    0b01110_10001_10011_10101_11001_10001_01110,
    0b00100_01100_00100_00100_00100_00100_01110,
    0b01110_10001_00001_00010_00100_01000_11111,
    0b11111_00010_00100_00010_00001_10001_01110,
    0b00010_00110_01010_10010_11111_00010_00010,
    0b11111_10000_11110_00001_00001_10001_01110,
    0b00110_01000_10000_11110_10001_10001_01110,
    0b11111_00001_00010_00100_01000_01000_01000,
    0b01110_10001_10001_01110_10001_10001_01110,
    0b01110_10001_10001_01111_00001_00010_01100,
    0b00000_00000_00000_01110_00000_00000_00000,
];

// The sign's place among the glyphs.
const MINUS: u8 = 10;

// A row of the paper alone.
pub fn paper() -> [u32; 256] {
    [PAPER; 256]
}

// A row of marks.
pub fn marks(scale: Scale) -> [u32; 256] {
    let mut words = paper();
    for k in 0..scale.steps {
        mark(&mut words, place(scale, k));
    }
    mark(&mut words, 255);
    words
}

fn mark(words: &mut [u32; 256], x: u8) {
    words[x as usize] = INK;
}

// One of the seven rows of the numbers.
pub fn numbers(scale: Scale, row: u8) -> [u32; 256] {
    let mut words = paper();
    for k in 0..=scale.steps {
        number(&mut words, row, scale, k);
    }
    words
}

// Where the number after k steps stands.
fn place(scale: Scale, k: u8) -> u8 {
    if scale.steps == 0 {
        return 0;
    }
    ((k as usize) * 255 / (scale.steps as usize) % 256) as u8
}

// A row of the number after k steps.
fn number(words: &mut [u32; 256], row: u8, scale: Scale, k: u8) {
    let up = 5 * (k as u32);
    let below = scale.below as u32;
    let x = place(scale, k);
    if up < below {
        signed(words, row, below - up, x);
        return;
    }
    unsigned(words, row, up - below, x);
}

// A number below 0, by its size.
fn signed(words: &mut [u32; 256], row: u8, size: u32, x: u8) {
    if size < 10 {
        let at = left(x, 5);
        glyph(words, row, at, 0, MINUS);
        glyph(words, row, at, 6, (size % 10) as u8);
        return;
    }
    let at = left(x, 8);
    glyph(words, row, at, 0, MINUS);
    glyph(words, row, at, 6, (size / 10 % 10) as u8);
    glyph(words, row, at, 12, (size % 10) as u8);
}

fn unsigned(words: &mut [u32; 256], row: u8, size: u32, x: u8) {
    if size < 10 {
        glyph(words, row, left(x, 2), 0, (size % 10) as u8);
        return;
    }
    let at = left(x, 5);
    glyph(words, row, at, 0, (size / 10 % 10) as u8);
    glyph(words, row, at, 6, (size % 10) as u8);
}

// Where a text begins that has its middle at a place, with so many pixels on either side: not outside the picture.
fn left(x: u8, half: u8) -> u8
    requires { half ≤ 8 }
{
    if x < half {
        return 0;
    }
    if x > 255 - half {
        return 255 - half - half;
    }
    x - half
}

// A row of a glyph, some pixels after a place.
fn glyph(words: &mut [u32; 256], row: u8, at: u8, after: u8, which: u8) {
    let mut bits = glyph_row(which, row);
    for i in 0..5 {
        if bits % 2 == 1 {
            words[((at as usize) + (after as usize) + 4 - i) % 256] = INK;
        }
        bits /= 2;
    }
}

fn glyph_row(which: u8, row: u8) -> u64 {
    let index = (which % 11) as usize;
    let below = (6 - row % 7) as u32;
    GLYPHS[index] >> (5 * below) & 31
}
