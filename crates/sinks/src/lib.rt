// Where pairs are sent: the sink, a sink that fills a memory with a cell for each pair, and the sending of all pairs of a row of bytes.
#![tactic(auto)]

pub mod bytes;
pub mod cells;
pub mod octal;
pub mod sending;
pub mod sink;
