//! Calls in the forms that stand beside those of programs and exports, each made once.
#![tactic(auto)]

#[cfg(test)]
mod best;
#[cfg(test)]
mod texts;
