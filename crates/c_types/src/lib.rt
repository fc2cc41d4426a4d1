// Answers, settings and nodata values as C has them (include/legend.h), as `repr(C)` structs and numbers, and what is refused of flags and
// kinds before any rule is asked.
#![tactic(auto)]

pub mod answer;
pub mod refusals;
pub mod samples;
pub mod settings;
