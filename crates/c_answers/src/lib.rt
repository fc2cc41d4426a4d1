// What calls answer C beside a refusal (include/legend.h): colours, palettes, ramps, keys, ranges and lists.
#![tactic(auto)]

pub mod colors;
pub mod keys;
pub mod ramps;
pub mod uses;
