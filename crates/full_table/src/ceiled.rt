//! A problem under ceilings.
ghost use Rattle.std.specs.Prelude.{◌≡◌, length};
ghost use Rattle.theory.specs.Problem.{lent_problem, Bounded};

use theory::Problem;

// A problem, and for every period the most that may have been made by its end.
#[derive(Clone, Copy)]
pub struct CeiledProblem<'a> {
    pub problem: Problem<'a>,
    pub ceilings: &'a [u16],
    pub ghost bounded: { Bounded (lent_problem problem) },
    pub ghost each: { length ceilings.now ≡ length problem.demand.now },
}
