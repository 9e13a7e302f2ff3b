//! The table of recursion (5) in lent areas: its rows, one for each period, and the plan read back from it.
#![tactic(auto)]

ghost use Rattle.std.specs.Prelude.{◌≡◌, length};
ghost use Rattle.theory.specs.Problem.{lent_problem};
ghost use Rattle.full_table.specs.Table.{stage_at, Staged, Fillable, TableFilled, Traceable, plan_read};

mod ceiled;

pub use ceiled::CeiledProblem;
use full_rows::Stage;
use std::mem;

// A period as a stage, where the totals from `low` to `high` can be reached before it, and no more than its ceiling may be after it.
fn stage_at(p: CeiledProblem, i: usize, low: usize, high: usize) -> Stage
    requires { Staged (lent_problem p.problem) i low high }
    ensures { result ≡ stage_at (lent_problem p.entry.problem) p.entry.ceilings.now i low high }
{
    let CeiledProblem {
        problem,
        ceilings,
        ..
    } = p;
    let capacity = usize::from(problem.capacity[i]);
    Stage {
        capacity,
        setup: problem.setup[i],
        unit: problem.unit[i],
        holding: problem.holding[i],
        low,
        high,
        floor: low + usize::from(problem.demand[i]),
        top: usize::from(ceilings[i]).min(high + capacity),
    }
}

// Fills the rows of choices, for the totals that can be reached under the ceilings. Two rows of costs take turns. Free: all costs, and the other choices.
pub fn fill(p: CeiledProblem, costs: &mut [u64], choices: &mut [u16], total: usize)
    requires { Fillable (lent_problem p.problem) p.ceilings.now costs.old choices.old total }
    ensures { TableFilled (lent_problem p.entry.problem) p.entry.ceilings.now total choices.new }
{
    let width = total + 1;
    let (mut before, mut after) = costs.split_at_mut(width);
    let mut low = 0;
    let mut high = 0;
    before[0] = 0;
    // By index: a period has an entry in six tables, and its row of choices a place among the rows.
    for i in 0..p.problem.demand.len() {
        let stage = stage_at(p, i, low, high);
        full_rows::step(stage, before, after, &mut choices[i * width..]);
        low = stage.floor;
        high = stage.top;
        mem::swap(&mut before, &mut after);
    }
}

// Reads the plan back, of as many periods as there are slots, from its end.
pub fn read_back(choices: &[u16], slots: &mut [u16], total: usize)
    requires { Traceable choices.now (length slots.old) total }
    ensures { slots.new ≡ plan_read choices.now (length slots.old) total }
{
    let width = total + 1;
    let mut left = total;
    // By index: of slots that `iter_mut` lends to `rev` nothing is known afterwards.
    for i in (0..slots.len()).rev() {
        let amount = choices[i * width + left];
        slots[i] = amount;
        left -= usize::from(amount);
    }
}
