//! Trials of the four paths: on the day and the memory that a line gives, and on made-up tiny days beside the plain search.
#![tactic(auto)]

pub mod paths;
pub mod tiny;
