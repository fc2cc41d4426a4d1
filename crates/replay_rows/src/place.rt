// Where the parts of a row stand (crates/run_replay/README.md). What a row asks comes first, from 0 to 127; the answers follow.

// How many words a row has.
pub const WORDS: usize = 1680;

// ---- what a row asks

// The number of its kind (`crate::kind`).
pub const KIND: usize = 0;

// Where the colours come from: a palette's number, or 32 for the list; the list's length.
pub const SOURCE: usize = 1;

pub const LIST_COUNT: usize = 2;

// The settings. The flags: 1 low is given, 2 high is given, 4 zero is nodata, 8 a nodata value is given.
pub const NODATA_COLOR: usize = 3;

pub const FLAGS: usize = 4;

pub const LOW: usize = 5;

pub const HIGH: usize = 6;

pub const NODATA: usize = 7;

// The samples' type: 0 f32, 1 u8 or 2 i16; how many there are.
pub const SAMPLE_TYPE: usize = 8;

pub const SAMPLE_COUNT: usize = 9;

// How many bands, ranges, keys or bytes there are; how many words the table of stored categories has.
pub const COUNT: usize = 10;

pub const TABLE_COUNT: usize = 11;

// The list of colours; bounds, keys or bytes; the table; the samples.
pub const COLORS: usize = 16;

pub const NUMBERS: usize = 32;

pub const TABLE: usize = 64;

pub const SAMPLES: usize = 80;

// ---- the answers

// The number of the refusal, or 0; its index and 1, or 0.
pub const ANSWER: usize = 128;

pub const INDEX: usize = 129;

// The range of values.
pub const RANGE: usize = 130;

// What the legend holds: ten words, and from ARRAYS on the arrays of its kind.
pub const RECORD: usize = 132;

// The samples' colours one by one, painted plainly, and painted in lanes.
pub const VALUES: usize = 144;

pub const PLAIN: usize = 184;

pub const LANES_4: usize = 224;

pub const LANES_8: usize = 264;

pub const LANES_16: usize = 304;

// Scratch after each painting in lanes.
pub const SCRATCH_4: usize = 344;

pub const SCRATCH_8: usize = 360;

pub const SCRATCH_16: usize = 376;

pub const COLOR_LIST: usize = 392;

pub const ARRAYS: usize = 648;

// The source that is the list.
pub const FROM_LIST: u32 = 32;
