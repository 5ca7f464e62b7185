// What the kinds share: cells, rows, layouts, two's complement, and characters of 7 bits.
#![tactic(auto)]

pub mod cell;
pub mod characters;
pub mod codes;
