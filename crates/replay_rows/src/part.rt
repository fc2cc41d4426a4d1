// A row's words, the parts of a row as values, parts put into a row, and two rows compared.
ghost use Rattle.std.specs.Prelude.{◌≡◌, ◌+◌, ◌%◌, ◌≤◌, length};
ghost use Rattle.lists.specs.Padded.{padded};
ghost use Rattle.lists.specs.Tabulate.{tabulate};
ghost use Rattle.words.specs.Values.{word_at, float_of, short_of, whole_of};
ghost use Rattle.replay_rows.specs.Parts.{words_at, values_at, put_at, first_difference};

use crate::place;

// ---- a row

// A row of its bytes.
#[tactic(auto, using(crate::proofs::Stored::storing))]
pub fn words_of(bytes: &[u8; 6720]) -> [u32; 1680]
    ensures { result ≡ tabulate 1680 (word_at bytes.now) }
{
    let mut words = [0u32; 1680];
    for i in 0..1680 {
        words[i] = words::word(
            bytes[4 * i],
            bytes[4 * i + 1],
            bytes[4 * i + 2],
            bytes[4 * i + 3],
        );
    }
    words
}

// What a row asks, with zeros for the answers.
#[tactic(auto, using(crate::proofs::Rows::asked_over))]
pub fn asked(row: &[u32; 1680]) -> [u32; 1680]
    ensures { result ≡ padded 0 1680 (words_at 0 128 row.now) }
{
    let mut words = [0u32; 1680];
    words[..128].copy_from_slice(&row[..128]);
    words
}

// ---- parts of a row as values

// Sixteen words from a place on.
#[tactic(auto, using(crate::proofs::Rows::words_part))]
pub fn words_at(row: &[u32; 1680], from: usize) -> [u32; 16]
    requires { from + 16 ≤ 1680 }
    ensures { result ≡ words_at from 16 row.now }
{
    let mut words = [0u32; 16];
    words.copy_from_slice(&row[from..from + 16]);
    words
}

// Sixteen fractions.
#[tactic(auto, using(crate::proofs::Stored::storing))]
pub fn fractions(row: &[u32; 1680]) -> [f32; 16]
    ensures { result ≡ values_at float_of 80 16 row.now }
{
    let mut floats = [0.0f32; 16];
    for i in 0..16 {
        floats[i] = words::float(row[place::SAMPLES + i]);
    }
    floats
}

// Sixteen keys.
#[tactic(auto, using(crate::proofs::Stored::storing))]
pub fn keys(row: &[u32; 1680]) -> [i64; 16]
    ensures { result ≡ values_at whole_of 32 16 row.now }
{
    let mut keys = [0i64; 16];
    for i in 0..16 {
        keys[i] = words::key(row[place::NUMBERS + i]);
    }
    keys
}

// The samples: floats, i16, or bytes, one a word, as those of a text.
#[tactic(auto, using(crate::proofs::Stored::storing))]
pub fn floats(row: &[u32; 1680]) -> [f32; 40]
    ensures { result ≡ values_at float_of 80 40 row.now }
{
    let mut floats = [0.0f32; 40];
    for i in 0..40 {
        floats[i] = words::float(row[place::SAMPLES + i]);
    }
    floats
}

#[tactic(auto, using(crate::proofs::Stored::storing))]
pub fn shorts(row: &[u32; 1680]) -> [i16; 40]
    ensures { result ≡ values_at short_of 80 40 row.now }
{
    let mut shorts = [0i16; 40];
    for i in 0..40 {
        shorts[i] = words::short(row[place::SAMPLES + i]);
    }
    shorts
}

#[tactic(auto, using(crate::proofs::Stored::storing))]
pub fn bytes(row: &[u32; 1680], from: usize) -> [u8; 40]
    requires { from + 40 ≤ 1680 }
    ensures { result ≡ values_at (λ w. w % 256) from 40 row.now }
{
    let mut bytes = [0u8; 40];
    for i in 0..40 {
        bytes[i] = words::byte(row[from + i]);
    }
    bytes
}

// ---- answers

// A row with these words from a place on.
#[tactic(auto, using(crate::proofs::Rows::laid_over))]
pub fn put(row: [u32; 1680], from: usize, words: &[u32]) -> [u32; 1680]
    requires { from + length words.now ≤ 1680 }
    ensures { result ≡ put_at from words.now row }
{
    let mut result = row;
    result[from..from + words.len()].copy_from_slice(words);
    result
}

// The place of the first word in which two rows differ, 1680 where they are the same.
#[tactic(auto, using(crate::proofs::Rows::first_found, crate::proofs::Rows::none_found))]
pub fn first_difference(a: &[u32; 1680], b: &[u32; 1680]) -> usize
    ensures { result ≡ first_difference a.now b.now }
{
    for i in 0..1680 {
        if a[i] != b[i] {
            return i;
        }
    }
    1680
}
