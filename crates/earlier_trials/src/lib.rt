//! Calls of the trials' crates in the forms that stand beside those of the program, each made once.
#![tactic(auto)]

#[cfg(test)]
mod calls;
