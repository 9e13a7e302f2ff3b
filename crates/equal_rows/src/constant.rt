//! A problem with one capacity throughout.
ghost use Rattle.std.specs.Prelude.{◌<◌};
ghost use Rattle.equal_runs.specs.Run.{lent_constant};
ghost use Rattle.equal_rows.specs.Consider.{ConstantCapacity};

use theory::Problem;

// A problem, and the full load that each of its periods can make. Its own capacities are not read.
#[derive(Clone, Copy)]
pub struct ConstantProblem<'a> {
    pub problem: Problem<'a>,
    pub full: u16,
    pub ghost constant: { ConstantCapacity (lent_constant problem full) full },
    pub ghost room: { 0 < full },
}
