//! The rows of the equal path. Row m is the plan of the first m periods that leaves the inventory empty, with its cost: the first of
//! row l and an interval from l to m, over l below m. Row m stands in the choice area from m × n on, its cost in cell m of the cost area.
//! Past the rows stands the work on an interval; what is left there, and in the slots, is free.
#![tactic(auto)]

ghost use Rattle.std.specs.Prelude.{◌≡◌, ◌+◌, ◌-◌, ◌*◌, ◌≤◌, ◌<◌, min, length};
ghost use Rattle.day.specs.Sums.{at};
ghost use Rattle.equal_runs.specs.States.{index_of};
ghost use Rattle.equal_rows.specs.Order.{Ordered, Decided};
ghost use Rattle.equal_rows.specs.Rows.{areas, load_sizes, LoadsSplit, Layable, Laid, Tryable, IntervalTold, CandidateTold};
ghost use Rattle.equal_rows.specs.Best.{PlanRow};
ghost use Rattle.equal_rows.specs.Consider.{Keepable, RowStored, RowSettled, Considerable, Considered};
ghost use Rattle.equal_rows.specs.Consider.{RowsBefore, RowFound, RowsWanted};
ghost use Rattle.equal_rows.specs.Constant.{constant_problem};

mod constant;

pub use constant::ConstantProblem;
use equal_runs::{LoadSizes, NONE, read_back, run};
use std::cmp::Ordering;

// Whether x has the smaller amount in the last period in which the two differ.
fn smaller(x: &[u16], y: &[u16]) -> bool
    requires { length y.now ≡ length x.now }
    ensures { Ordered (length x.now) (at x.now) (at y.now) result }
{
    x.iter().rev().lt(y.iter().rev())
}

// Whether x at cost v goes before y at cost w.
fn goes_first(v: u64, x: &[u16], w: u64, y: &[u16]) -> bool
    requires { length y.now ≡ length x.now }
    ensures { Decided (length x.now) v (at x.now) w (at y.now) result }
{
    // By match: `then_with` takes an order of the amounts, and what `cmp` says of two reversed runs of cells did not lead to one, as what `lt` says does;
    // and by `v < w || (v == w && ..)` the equal path takes a tenth more time.
    match v.cmp(&w) {
        Ordering::Less => true,
        Ordering::Equal => smaller(x, y),
        Ordering::Greater => false,
    }
}

// The fractional load of an interval, and the state that it ends in.
#[derive(Clone, Copy)]
struct Ending {
    part: u16,
    top: usize,
}

// Where the state with j full loads stands that has a fractional load if there is one.
fn state_of(j: u64, part: u64) -> usize
    requires { j ≤ 96 }
    ensures { result ≡ index_of j (min 1 part) }
{
    // `as`: from u64 std has no From for usize.
    (2 * j + part.min(1)) as usize
}

// The loads that make `left` in all: as many full ones as it holds, and a fractional load where they leave something.
fn split(left: u64, full: u16) -> Ending
    requires { (0 < full) × (left ≤ full * 96) }
    ensures { LoadsSplit left full result }
{
    let c = u64::from(full);
    let rest = left % c;
    Ending {
        part: rest as u16,
        top: state_of(left / c, rest),
    }
}

// The intervals of `count` periods from l on, past the rows.
// The two areas go one by one, here and below: each clause would owe of a struct of `&mut` that both references stay the same. So do `l` and `left`, since no
// fact ties them that leaves the problem and the row out, and a cost beside its amounts, which are lent.
fn lay(
    p: ConstantProblem,
    ending: Ending,
    l: usize,
    count: usize,
    costs: &mut [u64],
    choices: &mut [u16],
)
    requires { Layable (constant_problem p)
        l count ending.top (areas costs.old choices.old) }
    ensures { Laid (constant_problem p.entry)
        (load_sizes p.entry.full ending.part) l count ending.top
        (areas costs.old choices.old)
        (areas costs.new choices.new) }
{
    let n = p.problem.demand.len();
    let sizes = LoadSizes {
        full: p.full,
        part: ending.part,
    };
    let top = ending.top;
    let width = 2 * n + 2;
    let from = n + 1;
    let past = n * n + n;
    run(
        p.problem,
        l,
        count,
        sizes,
        top,
        width,
        &mut costs[from..],
        &mut choices[past..],
    );
}

// The interval from l that makes `left` in as many periods as there are slots: its amounts, and its cost.
fn trial(
    p: ConstantProblem,
    l: usize,
    left: u64,
    costs: &mut [u64],
    choices: &mut [u16],
    slots: &mut [u16],
) -> u64
    requires { Tryable (constant_problem p)
        p.full l left (length slots.old) (areas costs.old choices.old) }
    ensures { IntervalTold (constant_problem p.entry)
        p.entry.full l left
        (areas costs.old choices.old)
        result (areas costs.new choices.new) slots.new }
{
    let n = p.problem.demand.len();
    let ending = split(left, p.full);
    lay(p, ending, l, slots.len(), costs, choices);
    let top = ending.top;
    let past = n * n + n;
    read_back(p.full, 2 * n + 2, &choices[past..], top, slots);
    costs[n + 1 + top]
}

// Row l, and after it the interval from l that makes `left`: as many periods as there are slots. Its amounts, and its cost.
fn candidate(
    p: ConstantProblem,
    l: usize,
    left: u64,
    costs: &mut [u64],
    choices: &mut [u16],
    slots: &mut [u16],
) -> u64
    requires { Considerable (constant_problem p)
        p.full l (length slots.old) left (areas costs.old choices.old) }
    ensures { CandidateTold (constant_problem p.entry)
        p.entry.full l left (length slots.old - l)
        (areas costs.old choices.old)
        result (areas costs.new choices.new) slots.new }
{
    let from = l * p.problem.demand.len();
    copy(&choices[from..from + l], &mut slots[..l]);
    let before = costs[l];
    let run = trial(p, l, left, costs, choices, &mut slots[l..]);
    before + run
}

// Cells as others of their length hold them. By hand: of std's copy between two lent areas the compiler makes a call of `memmove`, which a station without an
// operating system need not supply; in `drops`, where one side is a table of the call's own, it makes none. And `to` by index: of cells that `iter_mut` lends
// to a `zip` nothing is known afterwards.
pub fn copy(from: &[u16], to: &mut [u16])
    requires { length to.old ≡ length from.now }
    ensures { to.new ≡ from.now }
{
    for (i, &amount) in from.iter().enumerate() {
        to[i] = amount;
    }
}

// The amounts in the slots become the row of as many periods, at the cost v.
fn keep(v: u64, n: usize, slots: &[u16], costs: &mut [u64], choices: &mut [u16])
    requires { Keepable n (length slots.now) (areas costs.old choices.old) }
    ensures { RowStored n (length slots.now) v slots.now
        (areas costs.old choices.old)
        (areas costs.new choices.new) }
{
    let m = slots.len();
    let from = m * n;
    copy(slots, &mut choices[from..from + m]);
    costs[m] = v;
}

// They become it only where they go before what stands there.
fn settle(v: u64, n: usize, slots: &[u16], costs: &mut [u64], choices: &mut [u16])
    requires { Keepable n (length slots.now) (areas costs.old choices.old) }
    ensures { RowSettled n (length slots.now) v slots.now
        (areas costs.old choices.old)
        (areas costs.new choices.new) }
{
    let m = slots.len();
    let from = m * n;
    if goes_first(v, slots, costs[m], &choices[from..from + m]) {
        keep(v, n, slots, costs, choices);
    }
}

// The candidate that begins with row l is tried for the row of as many periods as there are slots, and kept where it goes first.
fn consider(
    p: ConstantProblem,
    l: usize,
    left: u64,
    costs: &mut [u64],
    choices: &mut [u16],
    slots: &mut [u16],
)
    requires { Considerable (constant_problem p)
        p.full l (length slots.old) left (areas costs.old choices.old) }
    ensures { Considered (constant_problem p.entry)
        p.entry.full (length slots.old) (l + 1)
        (areas costs.old choices.old)
        (areas costs.new choices.new) }
{
    let v = candidate(p, l, left, costs, choices, slots);
    settle(v, p.problem.demand.len(), slots, costs, choices);
}

// The row of as many periods as there are slots, whose demand is `need`, from the rows before it.
fn row(p: ConstantProblem, need: u64, costs: &mut [u64], choices: &mut [u16], slots: &mut [u16])
    requires { RowsBefore (constant_problem p)
        (length slots.old) need (areas costs.old choices.old) }
    ensures { RowFound (constant_problem p.entry)
        (length slots.old)
        (areas costs.old choices.old)
        (areas costs.new choices.new) }
{
    let m = slots.len();
    costs[m] = NONE;
    let mut left = need;
    for (l, &demanded) in p.problem.demand[..m].iter().enumerate() {
        consider(p, l, left, costs, choices, slots);
        left -= u64::from(demanded);
    }
}

// Every row, where each period can make a full load; the last is the plan.
pub fn rows(p: ConstantProblem, costs: &mut [u64], choices: &mut [u16], slots: &mut [u16])
    requires { RowsWanted (constant_problem p)
        (areas costs.old choices.old) slots.old }
    ensures { PlanRow (constant_problem p.entry)
        (length p.entry.problem.demand.now) (areas costs.new choices.new) }
{
    costs[0] = 0;
    let mut need: u64 = 0;
    for (m, &demanded) in p.problem.demand.iter().enumerate() {
        need += u64::from(demanded);
        row(p, need, costs, choices, &mut slots[..m + 1]);
    }
}
