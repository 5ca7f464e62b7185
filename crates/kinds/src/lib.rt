// Kinds: what the data fields of one mode and submode hold, and a kind laid over any book.
#![tactic(auto)]

pub mod kind;
pub mod over;
