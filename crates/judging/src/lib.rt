// One block in its place: what it is judged by, and what a refusal tells.
#![tactic(auto)]

pub mod blocks;
pub mod faults;
pub mod places;
