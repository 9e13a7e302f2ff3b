//! The equal path: Florian and Klein (report, section 3), for days with one capacity throughout whose stores can't bind.
//! It tests, takes the net needs and the rates, finds the plan row by row, hands out the last row, clears its areas, weighs the plan, and counts
//! its loads.
#![tactic(auto)]

ghost use Rattle.day.specs.Lent.{lent_day, memory_before, memory_after};
ghost use Rattle.day.specs.Outcome.{memory_of, sizes_of, Accepted};
ghost use Rattle.day.specs.Paths.{equal};
ghost use Rattle.day.specs.Loads.{EqualRuns};
ghost use Rattle.checks.specs.Passed.{Admitted};
ghost use Rattle.theory.specs.Problem.{lent_problem};
ghost use Rattle.equal_rows.specs.Rows.{areas};
ghost use Rattle.equal.specs.Solved.{Solvable, PlanFound};

use day::{Day, Loads, PathKind, Refusal, Sizes, Totals};
use equal_rows::ConstantProblem;
use net::Tables;
use theory::Problem;

// The plan into the slots. Where nothing can be made, nothing is demanded. What is left in the areas is free.
// The areas come one by one, here and below, for the reason beside `tables::put`.
fn solve(p: Problem, costs: &mut [u64], choices: &mut [u16], slots: &mut [u16])
    requires { Solvable (lent_problem p) (areas costs.old choices.old) slots.old }
    ensures { PlanFound (lent_problem p.entry) slots.new }
{
    let full = p.capacity[0];
    if full == 0 {
        slots.fill(0);
        return;
    }
    let constant = ConstantProblem { problem: p, full };
    equal_rows::rows(constant, costs, choices, slots);
    let n = p.demand.len();
    equal_rows::copy(&choices[n * n..n * n + n], slots);
}

// The work, once the tests have passed.
fn work(day: Day, costs: &mut [u64], choices: &mut [u16], slots: &mut [u16]) -> Totals
    requires { Admitted equal (lent_day day) (sizes_of (memory_of costs.old choices.old slots.old)) }
    ensures { Accepted equal
        (lent_day day.entry)
        result
        (memory_before costs choices slots)
        (memory_after costs choices slots) }
{
    let n = day.periods();
    let mut tables = Tables::new();
    let p = tables.problem(day);
    let needed = path_checks::cells(PathKind::Equal, n, 0);
    let cost_cells = needed.costs;
    let choice_cells = needed.choices;
    solve(
        p,
        &mut costs[..cost_cells],
        &mut choices[..choice_cells],
        &mut slots[..n],
    );
    costs[..cost_cells].fill(0);
    choices[..choice_cells].fill(0);
    weigher::totals(day, slots)
}

// The plan of a day with one capacity throughout whose stores can't bind, into the first n slots; the answer counts its loads.
// Its own, for the reason beside `full::plan`.
pub fn plan(
    day: Day,
    costs: &mut [u64],
    choices: &mut [u16],
    slots: &mut [u16],
) -> Result<(Totals, Loads), Refusal>
    ensures { EqualRuns
        (lent_day day.entry)
        (memory_before costs choices slots)
        result
        (memory_after costs choices slots) }
{
    let lent = Sizes {
        costs: costs.len(),
        choices: choices.len(),
        slots: slots.len(),
    };
    path_checks::path(PathKind::Equal, day, lent)?;
    let totals = work(day, costs, choices, slots);
    Ok((totals, loads::count(day.capacity, slots)))
}
