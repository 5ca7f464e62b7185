// The wire format: pairs of bytes, the two forms of a block, its head, mode, submode, LENGTH and CHECKSUM, and the classes of blocks.
#![tactic(auto)]

pub mod blocks;
pub mod classes;
pub mod forms;
pub mod laws;
pub mod modes;
pub mod pairs;
pub mod rows;
