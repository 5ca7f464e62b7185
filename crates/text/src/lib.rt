// The lines that the programs print: labelled values, one blank between two, ended by byte 10.
#![tactic(auto)]

pub mod lines;
mod writing;
