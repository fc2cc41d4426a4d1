// The samples of a row painted by a legend: one by one, plainly, and in 4, 8 and 16 lanes with what scratch then holds (crates/run_replay/README.md).
#![tactic(auto)]

pub mod paint;
mod raster;
mod sample;

// A painting in lanes: the words, and scratch after it, which held 5C5C5C5C in each word.
#[derive(Clone, Copy)]
pub struct LaneWords {
    pub words: [u32; 40],
    pub scratch: [u32; 16],
}

// Every painting of some samples.
#[derive(Clone, Copy)]
pub struct Paintings {
    pub values: [u32; 40],
    pub plain: [u32; 40],
    pub lanes_4: LaneWords,
    pub lanes_8: LaneWords,
    pub lanes_16: LaneWords,
}
