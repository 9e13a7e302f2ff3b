//! The uncapped path: Wagner and Whitin (report, section 3), for days whose capacities and stores can't bind.
//! It tests, takes the net needs and the rates, finds the cost and the last lot of every row, reads the plan back, clears its areas, and
//! weighs the plan.
#![tactic(auto)]

ghost use Rattle.day.specs.Lent.{lent_day, memory_before, memory_after};
ghost use Rattle.day.specs.Outcome.{memory_of, sizes_of, Accepted, Runs};
ghost use Rattle.day.specs.Paths.{uncapped};
ghost use Rattle.checks.specs.Passed.{Admitted};
ghost use Rattle.uncapped_rows.specs.Bounds.{lent_uncapacitated};
ghost use Rattle.uncapped.specs.Solved.{Solvable, Solved};

use day::{Day, PathKind, Refusal, Sizes, Totals};
use net::Tables;
use theory::Problem;

mod slots;

// The plan into the slots. What is left in the areas is free.
// The areas come one by one, here and below, for the reason beside `tables::put`.
fn solve(p: Problem, costs: &mut [u64], choices: &mut [u16], slots: &mut [u16])
    requires { Solvable (lent_uncapacitated p) (memory_of costs.old choices.old slots.old) }
    ensures { Solved
        (lent_uncapacitated p.entry)
        (memory_before costs choices slots)
        (memory_after costs choices slots) }
{
    uncapped_rows::fill(p, costs, choices);
    slots::read_back(p.demand, choices, slots);
}

// The work, once the tests have passed.
fn work(day: Day, costs: &mut [u64], choices: &mut [u16], slots: &mut [u16]) -> Totals
    requires { Admitted uncapped
        (lent_day day)
        (sizes_of (memory_of costs.old choices.old slots.old)) }
    ensures { Accepted uncapped
        (lent_day day.entry)
        result
        (memory_before costs choices slots)
        (memory_after costs choices slots) }
{
    let mut tables = Tables::new();
    let p = tables.problem(day);
    solve(p, costs, choices, slots);
    let needed = path_checks::cells(PathKind::Uncapped, day.periods(), 0);
    costs[..needed.costs].fill(0);
    choices[..needed.choices].fill(0);
    weigher::totals(day, slots)
}

// The plan of a day whose capacities and stores can't bind, into the first n slots. Its own, for the reason beside `full::plan`.
pub fn plan(
    day: Day,
    costs: &mut [u64],
    choices: &mut [u16],
    slots: &mut [u16],
) -> Result<Totals, Refusal>
    ensures { Runs uncapped
        (lent_day day.entry)
        (memory_before costs choices slots)
        result
        (memory_after costs choices slots) }
{
    let lent = Sizes {
        costs: costs.len(),
        choices: choices.len(),
        slots: slots.len(),
    };
    path_checks::path(PathKind::Uncapped, day, lent)?;
    Ok(work(day, costs, choices, slots))
}
