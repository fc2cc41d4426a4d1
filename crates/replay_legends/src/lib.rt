// The legend that a row of stored answers asks for (crates/run_replay/README.md).
#![tactic(auto)]

pub mod build;
mod list;
