//! The regeneration intervals of the equal path (operators say: runs). A state of one is how many full loads are made and whether the fractional
//! load (operators say: the part load) is:
//! j and d stand at index 2 × j + d of a row of costs.
#![tactic(auto)]

ghost use Rattle.std.specs.Prelude.{◌≡◌, ◌+◌, ◌-◌, ◌*◌, ◌^◌, ◌≤◌, ◌<◌, ◌/◌, ◌%◌, length};
ghost use Rattle.day.specs.Sums.{at, Term};
ghost use Rattle.theory.specs.Problem.{lent_problem, model_of};
ghost use Rattle.theory.specs.Loads.{made};
ghost use Rattle.equal_runs.specs.Bounds.{stock_most, row_most};
ghost use Rattle.equal_runs.specs.States.{offer_of, cheaper_of, load_of, state_by, period_of};
ghost use Rattle.equal_runs.specs.Fill.{RowFilled, RowLow, Advanced};
ghost use Rattle.equal_runs.specs.Run.{Runnable, Ran, lent_constant, start_of, step_of, back_of};

use std::cmp::min_by_key;
use theory::Problem;

// A number above every cost: what can't be reached costs this or more. It is no Option, since it stands in a lent cell of 64 bits.
pub const NONE: u64 = 7000000000000000000;

// What an interval's periods make: nothing, a full load, or the fractional load, which is less.
#[derive(Clone, Copy)]
pub struct LoadSizes {
    pub full: u16,
    pub part: u16,
}

// A period of an interval: its costs, and what the interval must have made by its end.
#[derive(Clone, Copy)]
pub struct RunPeriod {
    pub setup: u32,
    pub unit: u32,
    pub holding: u32,
    pub due: u64,
}

// What a state costs after some periods, and what the last of them makes.
#[derive(Clone, Copy)]
pub struct RunState {
    pub cost: u64,
    pub amount: u16,
}

// What j full loads and d fractional loads make.
fn made_by(sizes: LoadSizes, j: u64, d: u64) -> u64
    requires { (j ≤ 96) × (d ≤ 1) }
    ensures { Term (made sizes.full sizes.part j d) stock_most result }
{
    j * u64::from(sizes.full) + d * u64::from(sizes.part)
}

// To make x after a state that cost `before`, where it costs `hold` to hold what is then in inventory.
fn offer(p: RunPeriod, before: u64, x: u16, hold: u64) -> RunState
    requires { (before ≤ row_most) × (hold ≤ 2 ^ 56) }
    ensures { result ≡ offer_of p before x hold }
{
    RunState {
        cost: before + (terms::making_cost(p.setup, p.unit, u64::from(x)) + hold),
        amount: x,
    }
}

// The second only if it is cheaper: std's `min_by_key` for this type and key, told once in the words of specs/.
fn cheaper(a: RunState, b: RunState) -> RunState
    ensures { result ≡ cheaper_of a b }
{
    min_by_key(a, b, |state| state.cost)
}

// The row goes beside the period, here and below: `advance` writes it between one state and the next, so a struct of the two would be made for each state.
// A load is tried where the state at s has n of it; the state without one stands `step` before s.
fn with_load(
    p: RunPeriod,
    row: &[u64],
    s: usize,
    step: usize,
    n: usize,
    load: u16,
    hold: u64,
    best: RunState,
) -> RunState
    requires { RowLow row.now s × (0 < n → step ≤ s) × (hold ≤ 2 ^ 56) }
    ensures { result ≡ load_of p (at row.now) s step n load hold best }
{
    if 0 < n {
        cheaper(best, offer(p, row[s - step], load, hold))
    } else {
        best
    }
}

// State j and d after a period, from the row before it.
fn state_after(p: RunPeriod, sizes: LoadSizes, row: &[u64], j: usize, d: usize) -> RunState
    requires { RowLow row.now (2 * j + d) × (j ≤ 96) × (d ≤ 1) }
    ensures { result ≡ state_by p sizes (at row.now) j d }
{
    // `as`: from usize std has no From for u64.
    let sum = made_by(sizes, j as u64, d as u64);
    if sum < p.due {
        return RunState {
            cost: NONE,
            amount: 0,
        };
    }
    let hold = terms::holding_cost(p.holding, sum - p.due);
    let s = 2 * j + d;
    let stay = offer(p, row[s], 0, hold);
    let best = with_load(p, row, s, 1, d, sizes.part, hold, stay);
    with_load(p, row, s, 2, j, sizes.full, hold, best)
}

// One period more: the row after it, over the row before it, from its end; what the period makes goes to the front of `picks`.
// The row and the amounts come one by one, here and below, for the reason beside `tables::put`.
fn advance(p: RunPeriod, sizes: LoadSizes, row: &mut [u64], picks: &mut [u16])
    requires { RowLow row.old (length row.old - 1) × (length row.old ≤ 194) × (length row.old ≤ length picks.old) }
    ensures { Advanced p sizes 0 (length row.old - 1) row.old row.new 0 picks.old
        picks.new }
{
    // By index: a state is found from cells at its own place and below it, and written to that place in two lists.
    for s in (0..row.len()).rev() {
        let state = state_after(p, sizes, row, s / 2, s % 2);
        row[s] = state.cost;
        picks[s] = state.amount;
    }
}

// The row before the first period.
fn start(row: &mut [u64])
    requires { 0 < length row.old }
    ensures { RowFilled row.old row.new 0 start_of 0 (length row.old - 1) }
{
    row[0] = 0;
    row[1..].fill(NONE);
}

// Period i, in an interval that must have made `due` by its end.
fn period_at(problem: Problem, i: usize, due: u64) -> RunPeriod
    requires { (i < length problem.setup.now)
        × (i < length problem.unit.now)
        × (i < length problem.holding.now) }
    ensures { result ≡ period_of (lent_problem problem.entry) i due }
{
    RunPeriod {
        setup: problem.setup[i],
        unit: problem.unit[i],
        holding: problem.holding[i],
        due,
    }
}

// The intervals of `count` periods from l on, where a full load is what each period can make: their costs by the states up to `top`, and what each
// period makes, from its number times `width` on.
// Cells past these are left as they come: free.
pub fn run(
    problem: Problem,
    l: usize,
    count: usize,
    sizes: LoadSizes,
    top: usize,
    width: usize,
    row: &mut [u64],
    picks: &mut [u16],
)
    requires { Runnable (lent_problem problem) l count top width row.old picks.old }
    ensures { Ran (model_of (lent_constant problem.entry sizes.full)) l sizes count top width row.new picks.new }
{
    let states = &mut row[..=top];
    start(states);
    let mut due: u64 = 0;
    // By index: a period has an entry in four tables, and its amounts a place among those of the interval.
    for k in 0..count {
        let i = l + k;
        due += u64::from(problem.demand[i]);
        let p = period_at(problem, i, due);
        advance(p, sizes, states, &mut picks[k * width..]);
    }
}

// Where the state at s came from, if the period made x.
fn before(full: u16, x: u16, s: usize) -> usize
    ensures { result ≡ s - step_of full x }
{
    if x == 0 {
        s
    } else if x == full {
        s.saturating_sub(2)
    } else {
        s.saturating_sub(1)
    }
}

// The interval that leads to the state at s, as many periods as there are slots.
pub fn read_back(full: u16, width: usize, picks: &[u16], s: usize, slots: &mut [u16])
    requires { (s < width) × (length slots.old * width ≤ length picks.now) }
    ensures { slots.new ≡ back_of full width picks.now (length slots.old) s }
{
    let mut state = s;
    // By index: of slots that `iter_mut` lends to `rev` nothing is known afterwards.
    for k in (0..slots.len()).rev() {
        let x = picks[k * width + state];
        slots[k] = x;
        state = before(full, x, state);
    }
}
