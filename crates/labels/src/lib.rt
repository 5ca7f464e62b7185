// Characters on a chart.
#![tactic(auto)]

pub mod kind;
mod parts;
