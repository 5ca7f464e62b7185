// The lines of a listing: one for a product, one for each of its blocks, and one for a refusal.
#![tactic(auto)]

pub mod listing;
pub mod refusals;
