// Reading: what a closed product tells of its blocks.
#![tactic(auto)]

pub mod facts;
