//! Big days, best so far: trials by the greedy rule with starts taken as free, each of which forbids one period more.
//! It tests, takes the net needs and the rates, writes the keys of the periods into its cost area, where marks and the best plan follow them, makes the
//! trials, hands out the best plan, and clears the area.
#![tactic(auto)]

ghost use Rattle.std.specs.Prelude.{◌≡◌, [], None};
ghost use Rattle.day.specs.Lent.{lent_day, cells_before, cells_after};
ghost use Rattle.day.specs.Outcome.{memory_of, sizes_of};
ghost use Rattle.day.specs.Drops.{big_refusal, BestSoFar, Dropping};
ghost use Rattle.big.specs.Work.{TrialsAsk, TrialsGive, Answerable, answer_of};

use day::{Day, PathKind, Refusal, Sizes, Totals, Trials};
use drops::Ready;
use net::Tables;

// What the call gives beside the best plan: its totals, and how far it is from what trial 1's plan costs with all starts free.
fn answer(day: Day, first: &[u16], best: &[u16], used: usize) -> (Totals, Trials)
    requires { Answerable (lent_day day) first.now best.now }
    ensures { result ≡ answer_of (lent_day day.entry) first.now best.now used }
{
    let totals = weigher::totals(day, best);
    let free = drops::free_cost(day, first);
    let gap = totals.cost - free;
    // `as`: from usize std has no From for u64.
    (
        totals,
        Trials {
            used: used as u64,
            gap,
        },
    )
}

// The trials: their best plan, and trial 1's. How many they were. Cells and plans come one by one, for the reason beside `tables::put`.
fn make_trials(
    day: Day,
    keys: &mut [u64],
    marks: &mut [u64],
    first: &mut [u16],
    best: &mut [u64],
    trials: usize,
) -> usize
    requires { TrialsAsk trials (lent_day day) keys.old marks.old first.old best.old }
    ensures { TrialsGive trials (lent_day day.entry) result first.new marks.new best.new }
{
    let n = day.periods();
    let mut tables = Tables::new();
    let p = tables.problem(day);
    greedy::keys(p.unit, p.holding, keys);
    // There is no heap: of tables for the longest day the fronts, here and below.
    let mut allowed_table = [0u16; 96];
    let mut plan_table = [0u16; 96];
    let allowed = &mut allowed_table[..n];
    let plan = &mut plan_table[..n];
    let ready = Ready {
        day,
        net: p.demand,
        keys,
    };
    let cost = drops::begin_in_cells(ready, allowed, marks, best, first);
    drops::run_in_cells(ready, allowed, marks, best, plan, cost, trials)
}

// The work, once the tests have passed.
fn work(day: Day, costs: &mut [u64], slots: &mut [u16], trials: usize) -> (Totals, Trials)
    requires { big_refusal trials (lent_day day) (sizes_of (memory_of costs.old [] slots.old)) ≡ None }
    ensures { BestSoFar trials (lent_day day.entry) result.0 result.1 (cells_before costs slots) (cells_after costs slots) }
{
    let n = day.periods();
    // Trial 1's plan stays here, for the gap.
    let mut first_table = [0u16; 96];
    let first = &mut first_table[..n];
    let needed = path_checks::cells(PathKind::Big, n, 0);
    let area = &mut costs[..needed.costs];
    let (keys, later) = area.split_at_mut(n);
    let (marks, best) = later.split_at_mut(n);
    let used = make_trials(day, keys, marks, first, best, trials);
    // Only now, so that the slots are written once.
    let front = &mut slots[..n];
    rounds::hand_out(best, front);
    let given = answer(day, first, front, used);
    area.fill(0);
    given
}

// The best plan of a big day in so many trials, into the first n slots.
// Its own, for the reason beside `full::plan`.
pub fn plan(
    day: Day,
    costs: &mut [u64],
    slots: &mut [u16],
    trials: usize,
) -> Result<(Totals, Trials), Refusal>
    ensures { Dropping trials (lent_day day.entry) (cells_before costs slots) result (cells_after costs slots) }
{
    let lent = Sizes {
        costs: costs.len(),
        choices: 0,
        slots: slots.len(),
    };
    path_checks::path(PathKind::Big, day, lent)?;
    if trials == 0 {
        return Err(Refusal::NoTrials);
    }
    Ok(work(day, costs, slots, trials))
}
