// A product's life played from a list of steps.
#![tactic(auto)]

pub mod beginning;
pub mod entries;
pub mod playing;
pub mod replaying;
pub mod steps;
