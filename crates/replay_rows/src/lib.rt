// A row of stored answers, for the program `run_replay`: its kind, where its parts stand, and two rows compared.
#![tactic(auto)]

pub mod kind;
pub mod part;
pub mod place;
