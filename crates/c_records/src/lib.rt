// A legend as C holds it, and as C lends it (include/legend.h).
#![tactic(auto)]

pub mod record;
pub mod view;
