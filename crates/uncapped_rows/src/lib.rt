//! The rows of Wagner and Whitin (report, section 3): for every m the cost of the plan of the first m periods, and how many of them come
//! before its last lot. A candidate for the last lot is dropped as soon as its summed cost passes the best found.
#![tactic(auto)]

ghost use Rattle.std.specs.Prelude.{◌≡◌, ◌+◌, ◌*◌, ◌^◌, ◌<◌, length};
ghost use Rattle.day.specs.Sums.{at, Term};
ghost use Rattle.uncapped_rows.specs.Bounds.{lent_uncapacitated, LotFits, SumFits, Rates};
ghost use Rattle.uncapped_rows.specs.Rows.{better, lot_cost, held_through, carried_of, CheapestOf, NextRowReady, RestReady, LastLotOf};
ghost use Rattle.uncapped_rows.specs.Rows.{FillReady, RowsWritten};

mod carrying;

use carrying::Carrying;
use std::cmp::min_by_key;
use theory::Problem;

// A row's cost, and how many periods come before its last lot.
#[derive(Clone, Copy)]
pub struct LastLot {
    pub cost: u64,
    pub from: usize,
}

// Upkeep summed from a row's end down to a period: what has to be left when that period begins, and what holding costs from then on.
#[derive(Clone, Copy)]
pub struct Holding {
    pub left: u64,
    pub held: u64,
}

// Candidates go down, so one that only equals the best takes its place: std's `min_by_key` for this type and key, told once in the words of specs/.
fn cheaper(best: LastLot, l: usize, price: u64) -> LastLot
    ensures { result ≡ better best l price }
{
    let tried = LastLot {
        cost: price,
        from: l,
    };
    min_by_key(tried, best, |lot| lot.cost)
}

// What it costs to come to l and to make the lot of candidate l.
// The costs go beside the problem, here and below: `fill_rows` writes them between one row and the next, so a struct of both would be made for each row.
fn lot_cost(p: Problem, costs: &[u64], l: usize, made: u64) -> u64
    requires l_in_bounds { (l < length p.setup.now) × (l < length p.unit.now) }
    requires lot_fits { LotFits costs.now l made }
    ensures { Term (lot_cost p.entry.setup.now p.entry.unit.now (at costs.now) l made) (2 ^ 58) result }
{
    costs[l] + terms::making_cost(p.setup[l], p.unit[l], made)
}

// What it costs at least to come to l and to have all that is needed from there on carried in from before.
fn carried_cost(carried: &[u32], costs: &[u64], l: usize, made: u64) -> u64
    requires l_in_bounds { l < length carried.now }
    requires lot_fits { LotFits costs.now l made }
    ensures { Term (at costs.now l + at carried.now l * made) (2 ^ 58) result }
{
    costs[l] + terms::holding_cost(carried[l], made)
}

// The sum one period further down: what has to be left after that period is held through it, and its own demand is added.
fn hold(s: Holding, demand: u16, holding: u32) -> Holding
    requires { SumFits s demand }
    ensures { result ≡ held_through s demand holding }
{
    let left = s.left + u64::from(demand);
    let held = s.held + terms::holding_cost(holding, s.left);
    Holding { left, held }
}

// The rest of the search for row m + 1, once its last candidate is tried. A dropped candidate leaves the upkeep where it is summed to, and the
// next one carries on from there. The row is left where the least that any earlier candidate can cost passes the best.
fn cheapest(p: Carrying, costs: &[u64], m: usize, last: LastLot) -> LastLot
    requires { RestReady (lent_uncapacitated p.problem) costs.now m last }
    ensures { CheapestOf (lent_uncapacitated p.entry.problem)
        (at costs.now) m 0 result }
{
    let mut best = last;
    let mut made = u64::from(p.problem.demand[m]);
    let mut i = m;
    let mut s = Holding {
        left: made,
        held: 0,
    };
    // By index, both loops: a candidate has an entry in five tables, and the sum of its upkeep goes on from where the last one left it.
    'candidates: for l in (0..m).rev() {
        if best.cost < carried_cost(p.carried, costs, l + 1, made) + s.held {
            return best;
        }
        made += u64::from(p.problem.demand[l]);
        let paid = lot_cost(p.problem, costs, l, made);
        // its upkeep: strictly above the best it is dropped, and one that only equals the best is carried on
        for k in (l..i).rev() {
            if best.cost < paid + s.held {
                continue 'candidates;
            }
            s = hold(s, p.problem.demand[k], p.problem.holding[k]);
            i = k;
        }
        best = cheaper(best, l, paid + s.held);
    }
    best
}

// Row m + 1. Where no more is demanded, it is row m: its last candidate makes nothing.
fn row(p: Carrying, costs: &[u64], m: usize) -> LastLot
    requires { NextRowReady (lent_uncapacitated p.problem) costs.now m }
    ensures { LastLotOf (lent_uncapacitated p.entry.problem)
        (at costs.now) m result }
{
    let made = u64::from(p.problem.demand[m]);
    let last = LastLot {
        cost: lot_cost(p.problem, costs, m, made),
        from: m,
    };
    if made == 0 {
        return last;
    }
    cheapest(p, costs, m, last)
}

// For every period what a unit costs at least that is carried into it. Into the first none is: the limit of a unit cost stands there, so that
// its own is the least.
fn fill_carried(unit: &[u32], holding: &[u32], carried: &mut [u32])
    requires carried_len { length carried.old ≡ length unit.now }
    requires rates { Rates unit.now holding.now }
    ensures { carried.new ≡ carried_of unit.now holding.now }
{
    let mut least: u32 = 1000000;
    // The two tables by index: of cells that `iter_mut` lends to a `zip` nothing is known afterwards.
    for (l, cell) in carried.iter_mut().enumerate() {
        *cell = least;
        least = least.min(unit[l]) + holding[l];
    }
}

// Every row, from the first on, whose cost is 0: cell m of the areas holds row m.
fn fill_rows(p: Carrying, costs: &mut [u64], choices: &mut [u16])
    requires { FillReady (lent_uncapacitated p.problem) costs.old choices.old }
    ensures { RowsWritten (lent_uncapacitated p.entry.problem)
        costs.old choices.old costs.new choices.new }
{
    costs[0] = 0;
    // By index: a row is found from the cells of all rows before it, and goes into the next cell of two areas.
    for m in 0..p.problem.demand.len() {
        let next = row(p, costs, m);
        costs[m + 1] = next.cost;
        choices[m + 1] = next.from as u16;
    }
}

// The rows, with what is carried into every period in a table of their own.
pub fn fill(p: Problem, costs: &mut [u64], choices: &mut [u16])
    requires { FillReady (lent_uncapacitated p) costs.old choices.old }
    ensures { RowsWritten (lent_uncapacitated p.entry)
        costs.old choices.old costs.new choices.new }
{
    // There is no heap: of a table for the longest day the front.
    let mut carried_table = [0u32; 96];
    let carried = &mut carried_table[..p.unit.len()];
    fill_carried(p.unit, p.holding, carried);
    let carrying = Carrying {
        problem: p,
        carried,
    };
    fill_rows(carrying, costs, choices);
}
