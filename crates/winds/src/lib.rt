// Plotted winds: the kind of mode 5 and submode 3.
#![tactic(auto)]

pub mod barb;
pub mod kind;
mod parts;
