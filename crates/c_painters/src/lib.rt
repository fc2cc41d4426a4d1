// The painters for C and Rust (include/legend.h), by a legend whose arrays are borrowed, plainly and in lanes. Where a flag or the kind
// is refused, no buffer is touched.
#![tactic(auto)]

pub mod lanes;
pub mod plain;
