// The commands of a mending script, one a line.
#![tactic(auto)]

pub mod command;
pub mod faults;
mod words;
