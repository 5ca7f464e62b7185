// Texts of 7-bit characters, the kinds 5/4 and 5/20: bytes and numbers are read as characters, and judged by one rule.
#![tactic(auto)]

pub mod characters;
pub mod message;
pub mod routing;
mod scan;
pub mod text;
