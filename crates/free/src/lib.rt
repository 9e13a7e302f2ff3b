//! The free path: the greedy rule, for days without setup cost whose stores can't bind.
//! It tests, takes the net needs and the rates, writes the keys of the periods into its cost area, serves the needs in turn, clears the area, and
//! weighs the plan.
#![tactic(auto)]

ghost use Rattle.std.specs.Prelude.{[]};
ghost use Rattle.day.specs.Lent.{lent_day, cells_before, cells_after};
ghost use Rattle.day.specs.Outcome.{memory_of, sizes_of, Accepted, Runs};
ghost use Rattle.day.specs.Paths.{free};
ghost use Rattle.checks.specs.Passed.{Admitted};
ghost use Rattle.theory.specs.Problem.{lent_problem};
ghost use Rattle.free.specs.Solved.{Solvable, Solved};

use day::{Day, PathKind, Refusal, Sizes, Totals};
use greedy::Offers;
use net::Tables;
use theory::Problem;

// The plan into the slots: where no period is short, every need finds its capacity. What is left in the first n cost cells is free. The areas come one
// by one, for the reason beside `tables::put`.
fn solve(p: Problem, costs: &mut [u64], slots: &mut [u16])
    requires { Solvable (lent_problem p) (memory_of costs.old [] slots.old) }
    ensures { Solved (lent_problem p.entry) (cells_before costs slots) (cells_after costs slots) }
{
    greedy::keys(p.unit, p.holding, costs);
    slots[..p.demand.len()].fill(0);
    let from = Offers {
        keys: costs,
        capacity: p.capacity,
    };
    greedy::serve_all(p.demand, from, slots).unwrap();
}

// The work, once the tests have passed.
fn work(day: Day, costs: &mut [u64], slots: &mut [u16]) -> Totals
    requires { Admitted free (lent_day day) (sizes_of (memory_of costs.old [] slots.old)) }
    ensures { Accepted free (lent_day day.entry) result (cells_before costs slots) (cells_after costs slots) }
{
    let mut tables = Tables::new();
    let p = tables.problem(day);
    solve(p, costs, slots);
    let needed = path_checks::cells(PathKind::Free, day.periods(), 0);
    costs[..needed.costs].fill(0);
    weigher::totals(day, slots)
}

// The plan of a day without setup cost whose stores can't bind, into the first n slots.
// Its own, for the reason beside `full::plan`.
pub fn plan(day: Day, costs: &mut [u64], slots: &mut [u16]) -> Result<Totals, Refusal>
    ensures { Runs free (lent_day day.entry) (cells_before costs slots) result (cells_after costs slots) }
{
    let lent = Sizes {
        costs: costs.len(),
        choices: 0,
        slots: slots.len(),
    };
    path_checks::path(PathKind::Free, day, lent)?;
    Ok(work(day, costs, slots))
}
