//! A problem beside what is carried into its periods.
ghost use Rattle.std.specs.Prelude.{◌≡◌};
ghost use Rattle.uncapped_rows.specs.Rows.{carried_of};

use theory::Problem;

// A problem, and for every period what a unit costs at least that is carried into it.
#[derive(Clone, Copy)]
pub struct Carrying<'a> {
    pub problem: Problem<'a>,
    pub carried: &'a [u32],
    pub ghost carries: { carried.now ≡ carried_of problem.unit.now problem.holding.now },
}
