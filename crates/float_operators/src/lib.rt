// What the operators and casts of the source mean on f32 and f64. Each function is one operator or one cast, and its contract is the
// definition of floats/specs, written from IEEE 754-2019. Nothing calls these functions: that they are proved shows that the language's
// operators are the standard's. A `requires` stands only where the language defines a cast on fewer values than the standard does.
#![tactic(auto)]

pub mod conversions;
pub mod double;
pub mod single;
