// What the lane count of a processor changes, one fraction of a linear legend in full chunks, and that it changes nothing else for the legends named: a claim
// about what the painters' contracts promise (specs/Rule.antt), and no code.
#![tactic(auto)]
