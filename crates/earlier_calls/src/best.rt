//! The trials of a big day with the best plan in slots.
ghost use Rattle.day.specs.Lent.{lent_day};
ghost use Rattle.big.specs.Work.{TrialsAsk};

use crate::texts::three;
use day::{Day, PathKind, Refusal, Sizes};
use drops::Ready;
use net::Tables;

// The trials as `big` makes them, on tables of three periods.
fn make_trials(
    day: Day,
    keys: &mut [u64],
    marks: &mut [u64],
    first: &mut [u16],
    best: &mut [u16],
    trials: usize,
) -> usize
    requires { TrialsAsk trials (lent_day day) keys.old marks.old first.old best.old }
{
    let n = day.periods();
    let mut tables = Tables::new();
    let p = tables.problem(day);
    greedy::keys(p.unit, p.holding, keys);
    let mut allowed_table = [0u16; 96];
    let mut plan_table = [0u16; 96];
    let allowed = &mut allowed_table[..n];
    let plan = &mut plan_table[..n];
    let ready = Ready {
        day,
        net: p.demand,
        keys,
    };
    let cost = drops::begin(ready, allowed, marks, best, first);
    drops::run(ready, allowed, marks, best, plan, cost, trials)
}

// All of them, 20 at most, of a day of three periods that passes the tests of the call; how many they were.
fn trials_of(day: Day, first: &mut [u16; 3], best: &mut [u16; 3]) -> Result<usize, Refusal> {
    let lent = Sizes {
        costs: 9,
        choices: 0,
        slots: 3,
    };
    path_checks::path(PathKind::Big, day, lent)?;
    if day.periods() != 3 {
        return Err(Refusal::TableLength);
    }
    Ok(make_trials(day, &mut [0; 3], &mut [0; 3], first, best, 20))
}

#[test]
fn trials_with_the_best_plan_in_slots(rt: HostRuntime) {
    let mut first = [0; 3];
    let mut best = [0; 3];
    let used = trials_of(three(), &mut first, &mut best);
    assert!(rt; matches!(used, Ok(6)));
    assert_eq!(rt; first, [2, 0, 3]);
    assert_eq!(rt; best, [5, 0, 0]);
}
