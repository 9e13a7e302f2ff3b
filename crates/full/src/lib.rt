//! The full path: the plan of any day by recursion (5), over lent areas.
#![tactic(auto)]

ghost use Rattle.day.specs.Lent.{lent_day, memory_before, memory_after};
ghost use Rattle.day.specs.Outcome.{memory_of, sizes_of, Accepted, Runs};
ghost use Rattle.day.specs.Paths.{full};
ghost use Rattle.checks.specs.Passed.{Admitted};
ghost use Rattle.theory.specs.Problem.{lent_problem};
ghost use Rattle.full.specs.Work.{Workable, PlanLeft};

use day::{Day, PathKind, Refusal, Sizes, Totals};
use full_table::CeiledProblem;
use net::Tables;

// The plan into the slots. What is left in the areas is free.
// The areas come one by one, here and below, for the reason beside `tables::put`.
fn fill_and_read(
    p: CeiledProblem,
    costs: &mut [u64],
    choices: &mut [u16],
    slots: &mut [u16],
    total: usize,
)
    requires { Workable (lent_problem p.problem) p.ceilings.now total costs.old choices.old slots.old }
    ensures { PlanLeft (lent_problem p.entry.problem) p.entry.ceilings.now slots.new }
{
    full_table::fill(p, costs, choices, total);
    full_table::read_back(choices, slots, total);
}

// The work, once the tests have passed: the loops run on the net needs and the rates under the ceilings, the plan is weighed on the day itself.
pub fn work(day: Day, costs: &mut [u64], choices: &mut [u16], slots: &mut [u16]) -> Totals
    requires { Admitted full (lent_day day) (sizes_of (memory_of costs.old choices.old slots.old)) }
    ensures { Accepted full (lent_day day.entry) result
        (memory_before costs choices slots)
        (memory_after costs choices slots) }
{
    let n = day.periods();
    // `as`: from u64 std has no From for usize.
    let total = checks::total(day) as usize;
    let mut tables = Tables::new();
    let problem = tables.problem(day);
    // There is no heap: of a table for the longest day the front.
    let mut ceiling_table = [0u16; 96];
    let ceilings = &mut ceiling_table[..n];
    net::fill_ceilings(day, ceilings);
    let p = CeiledProblem { problem, ceilings };
    let needed = path_checks::cells(PathKind::Full, n, total);
    let cost_cells = needed.costs;
    let choice_cells = needed.choices;
    fill_and_read(
        p,
        &mut costs[..cost_cells],
        &mut choices[..choice_cells],
        &mut slots[..n],
        total,
    );
    costs[..cost_cells].fill(0);
    choices[..choice_cells].fill(0);
    weigher::totals(day, slots)
}

// The plan of a day into the first n slots, with its cost and its setups.
// Each path has its own: full and uncapped differ in kind and `work` alone, the others in areas or answer too. One over the kind and a closure would ask of
// the closure, as a bound over three lent areas, all that `Accepted` says.
pub fn plan(
    day: Day,
    costs: &mut [u64],
    choices: &mut [u16],
    slots: &mut [u16],
) -> Result<Totals, Refusal>
    ensures { Runs full (lent_day day.entry)
        (memory_before costs choices slots)
        result
        (memory_after costs choices slots) }
{
    let lent = Sizes {
        costs: costs.len(),
        choices: choices.len(),
        slots: slots.len(),
    };
    path_checks::path(PathKind::Full, day, lent)?;
    Ok(work(day, costs, choices, slots))
}
