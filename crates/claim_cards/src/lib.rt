// The reader of cards accepts exactly what the writer writes: a claim about what their contracts promise (specs/Exact.antt), and no code.
#![tactic(auto)]
