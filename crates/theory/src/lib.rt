//! The theory behind the planner, over one model, in specs/; the theorems of days are in proofs/.
#![tactic(auto)]

// What the loops of the paths run on: five tables, with one entry a period, slices as the day's own, three of which they are. Only a path's entry
// knows the day that they were made from.
#[derive(Clone, Copy)]
pub struct Problem<'a> {
    // net needs
    pub demand: &'a [u16],
    pub capacity: &'a [u16],
    pub setup: &'a [u32],
    pub unit: &'a [u32],
    // rates: what a unit above the net needs costs to hold
    pub holding: &'a [u32],
}
