//! The trials of a big day in turn: each plans by the greedy rule with starts taken as free, under capacities of which one more is 0.
#![tactic(auto)]

mod ready;

ghost use Rattle.std.specs.Prelude.{◌≡◌, false, ◌<◌};
ghost use Rattle.day.specs.Sums.{at};
ghost use Rattle.day.specs.Day.{periods};
ghost use Rattle.day.specs.Lent.{lent_day};
ghost use Rattle.day.specs.Plan.{cost};
ghost use Rattle.day.specs.Drops.{starts_free, FirstTrial};
ghost use Rattle.weigher.specs.Walk.{FeasiblePlan};
ghost use Rattle.drops.specs.Trial.{Triable, Comes};
ghost use Rattle.rounds.specs.Turns.{state_in};
ghost use Rattle.drops.specs.Standing.{Held, NextIs, Stepped, Startable, Begun, Finished};

use day::Day;
use greedy::Offers;
pub use ready::Ready;
use rounds::Turn;

// One trial, under the allowed capacities: what its plan costs, starts included, where there is a plan.
fn trial(ready: Ready, allowed: &[u16], plan: &mut [u16]) -> Option<u64>
    requires { Triable (lent_day ready.day) allowed.now plan.old }
    ensures { Comes (lent_day ready.entry.day) allowed.now result plan.new }
{
    plan.fill(0);
    let from = Offers {
        keys: ready.keys,
        capacity: allowed,
    };
    greedy::serve_all(ready.net, from, plan)?;
    Some(weigher::totals(ready.day, plan).cost)
}

// What a plan costs with all starts free.
pub fn free_cost(day: Day, plan: &[u16]) -> u64
    requires { FeasiblePlan (starts_free day.capacity.now (lent_day day)) plan.now }
    ensures { result ≡ cost (starts_free day.entry.capacity.now (lent_day day.entry)) (at plan.now) }
{
    // There is no heap: of a table for the longest day the front.
    let starts = [0u32; 96];
    let free = day.with_setup(&starts[..day.periods()]);
    weigher::totals(free, plan).cost
}

// Trial 1: all periods are allowed. There is a plan, since no period is short. Here and below capacities, marks and plans come one by one, for the
// reason beside `tables::put`.
pub fn begin_in_cells(
    ready: Ready,
    allowed: &mut [u16],
    marks: &mut [u64],
    best: &mut [u64],
    plan: &mut [u16],
) -> u64
    requires { Startable (lent_day ready.day) allowed.old marks.old best.old plan.old }
    ensures { Begun (lent_day ready.entry.day) result allowed.new marks.new best.new plan.new }
{
    // marks of 0, and below of 1: numbers, for the reason in `rounds`
    marks.fill(0);
    allowed.copy_from_slice(ready.day.capacity);
    let cost = trial(ready, allowed, plan).unwrap();
    rounds::keep(plan, best);
    cost
}

// Likewise, with the best plan in slots. There is no heap here either.
pub fn begin(
    ready: Ready,
    allowed: &mut [u16],
    marks: &mut [u64],
    best: &mut [u16],
    plan: &mut [u16],
) -> u64
    requires { Startable (lent_day ready.day) allowed.old marks.old best.old plan.old }
    ensures { Begun (lent_day ready.entry.day) result allowed.new marks.new best.new plan.new }
{
    let mut table = [0u64; 96];
    let cells = &mut table[..best.len()];
    let cost = begin_in_cells(ready, allowed, marks, cells, plan);
    best.copy_from_slice(plan);
    cost
}

// Where the trials stand, beside marks and amounts: what the best plan costs; the round, which has yet to look at the first `ahead` periods, and whether
// it has forbidden one of the others.
#[derive(Clone, Copy)]
struct Standing {
    cost: u64,
    ahead: usize,
    dropped: bool,
}

// The trial that forbids the turn's period too. It stays forbidden exactly if there is a plan that costs strictly less than the best so far.
fn step(
    ready: Ready,
    allowed: &mut [u16],
    marks: &mut [u64],
    best: &mut [u64],
    plan: &mut [u16],
    s: Standing,
    turn: Turn,
) -> Standing
    requires held { Held (lent_day ready.day) allowed.old marks.old best.old plan.old s.cost }
    requires next_is { NextIs (lent_day ready.day) marks.old best.old s turn }
    ensures { Stepped (lent_day ready.entry.day)
        s marks.old best.old
        result allowed.new marks.new best.new plan.new }
{
    let k = turn.period;
    allowed[k] = 0;
    let outcome = trial(ready, allowed, plan);
    if let Some(cost) = outcome.filter(|cost| *cost < s.cost) {
        marks[k] = 1;
        rounds::keep(plan, best);
        return Standing {
            cost,
            ahead: k,
            dropped: true,
        };
    }
    allowed[k] = ready.day.capacity[k];
    Standing {
        cost: s.cost,
        ahead: k,
        dropped: turn.dropped,
    }
}

// The trials after the first, until they are used up or a round has forbidden none; how many were made, with the first.
pub fn run_in_cells(
    ready: Ready,
    allowed: &mut [u16],
    marks: &mut [u64],
    best: &mut [u64],
    plan: &mut [u16],
    first: u64,
    trials: usize,
) -> usize
    requires held { Held (lent_day ready.day) allowed.old marks.old best.old plan.old first }
    requires first_trial { FirstTrial (lent_day ready.day) (state_in marks.old best.old (periods (lent_day ready.day)) false) }
    requires trials_nonzero { 0 < trials }
    ensures { Finished (lent_day ready.entry.day) trials result marks.new best.new }
{
    let mut s = Standing {
        cost: first,
        ahead: ready.day.periods(),
        dropped: false,
    };
    for used in 1..trials {
        let Some(turn) = rounds::next(marks, s.ahead, s.dropped) else {
            return used;
        };
        s = step(ready, allowed, marks, best, plan, s, turn);
    }
    trials
}

// Likewise, with the best plan in slots.
pub fn run(
    ready: Ready,
    allowed: &mut [u16],
    marks: &mut [u64],
    best: &mut [u16],
    plan: &mut [u16],
    first: u64,
    trials: usize,
) -> usize
    requires held { Held (lent_day ready.day) allowed.old marks.old best.old plan.old first }
    requires first_trial { FirstTrial (lent_day ready.day) (state_in marks.old best.old (periods (lent_day ready.day)) false) }
    requires trials_nonzero { 0 < trials }
    ensures { Finished (lent_day ready.entry.day) trials result marks.new best.new }
{
    let mut table = [0u64; 96];
    let cells = &mut table[..best.len()];
    rounds::keep(best, cells);
    let used = run_in_cells(ready, allowed, marks, cells, plan, first, trials);
    rounds::hand_out(cells, best);
    used
}
