// A player of mending scripts, which obeys their commands on one memory.
#![tactic(auto)]

mod answers;
pub mod player;
mod turns;
