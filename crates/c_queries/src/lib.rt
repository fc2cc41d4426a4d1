// The calls for C and Rust (include/legend.h) that answer a question and paint nothing: colours from text and palettes, ramps, keys, and what else a legend is
// used for.
#![tactic(auto)]

pub mod colors;
pub mod keys;
pub mod ramps;
pub mod uses;
