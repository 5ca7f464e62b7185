// Records: checked before they become blocks, and written as blocks.
#![tactic(auto)]

pub mod drafts;
pub mod writing;
