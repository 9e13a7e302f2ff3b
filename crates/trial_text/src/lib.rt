//! What the trials share: the lines that they read, what they print and count, and the cells that they lend. It needs none of the library's calls.
#![tactic(auto)]

pub mod cells;
pub mod counts;
pub mod days;
pub mod line;
pub mod show;
