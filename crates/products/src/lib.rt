// Products: received or started, mended in place, closed and reopened.
#![tactic(auto)]

pub mod calls;
pub mod closed;
pub mod holding;
pub mod kept;
pub mod opened;
pub mod opens;
mod places;
pub mod receipt;
pub mod tally;
