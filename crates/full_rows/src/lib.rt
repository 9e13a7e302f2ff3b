//! The row step of recursion (5): costs and last amounts for each total that one more period can reach.
#![tactic(auto)]

ghost use Rattle.std.specs.Prelude.{◌≡◌, ◌<◌, length};
ghost use Rattle.full_rows.specs.Row.{RowReady, Stepped};
ghost use Rattle.full_rows.specs.Candidates.{Scratch};

mod queue;
mod row;

use queue::Candidates;
use row::Row;

// One period, as the row step sees it: c, b, p and H, the totals that can be reached before it and after it.
#[derive(Clone, Copy)]
pub struct Stage {
    pub capacity: usize,
    pub setup: u32,
    pub unit: u32,
    pub holding: u32,
    pub low: usize,
    pub high: usize,
    pub floor: usize,
    pub top: usize,
}

// An amount, and what the total that it leads to costs before holding.
#[derive(Clone, Copy)]
pub struct Choice {
    pub amount: usize,
    pub price: u64,
}

// What the step writes for a total X: D_i(X), and the amount that ends its plan.
#[derive(Clone, Copy)]
pub struct Cell {
    pub cost: u64,
    pub amount: u16,
}

// A row of more than one total. Each total before the stage enters the queue once and leaves at most once.
// The two lent rows come one by one, here and below, for the reason beside `tables::put`, and so do their lengths.
fn fill(row: &Row<'_>, after: &mut [u64], choices: &mut [u16], cells: &mut [u16])
    requires cost_cells { row.now.stage.top < length after.old }
    requires choice_cells { row.now.stage.top < length choices.old }
    requires scratch { Scratch row.now.stage cells.old }
    ensures { Stepped row.now.stage row.now.costs.now after.new choices.new }
{
    let stage = row.stage;
    let mut queue = Candidates::new(row, cells);
    // Over totals, here and in `Candidates::new`: the recursion counts with them; each is the place of its two cells too.
    for total in stage.floor..=stage.top {
        let cell = queue.cell(row, total);
        queue.enter(row, total);
        after[total] = cell.cost;
        choices[total] = cell.amount;
    }
}

// A row of one total, by one scan.
fn fill_one(row: &Row<'_>, after: &mut [u64], choices: &mut [u16])
    requires cost_cells { row.now.stage.top < length after.old }
    requires choice_cells { row.now.stage.top < length choices.old }
    requires floor_value { row.now.stage.floor ≡ row.now.stage.top }
    ensures { Stepped row.now.stage row.now.costs.now after.new choices.new }
{
    let total = row.stage.top;
    let cell = row.cell(row.best(total), total);
    after[total] = cell.cost;
    choices[total] = cell.amount;
}

// The row after a stage and its choices, for the row before it. Free: the choices behind them, where the queue stands, and every other cost.
pub fn step(stage: Stage, before: &[u64], after: &mut [u64], choices: &mut [u16])
    requires { RowReady stage before.now after.old choices.old }
    ensures { Stepped stage before.now after.new choices.new }
{
    let row = Row {
        stage,
        costs: before,
    };
    if stage.floor < stage.top {
        let (chosen, cells) = choices.split_at_mut(stage.top + 1);
        fill(&row, after, chosen, cells);
    } else if stage.floor == stage.top {
        fill_one(&row, after, choices);
    }
}
