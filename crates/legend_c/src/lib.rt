// The static library for C and Rust (include/legend.h): each call by its exported name, with the contract of the function that answers it.
#![tactic(auto)]

mod builders;
mod cards;
mod colors;
mod keys;
mod lanes;
mod plain;
mod ramps;
mod uses;
