//! The trials of a big day in lent cells of 64 bits: which period is forbidden next, and the best plan so far. A mark says of each period whether it is
//! forbidden: 0 where it is allowed, a number, for those cells.
#![tactic(auto)]

ghost use Rattle.std.specs.Prelude.{◌≡◌, List, ℕ, ◌^◌, ◌≤◌, ◌<◌, length};
ghost use Rattle.day.specs.Sums.{at};
ghost use Rattle.day.specs.Drops.{last_open, another_round, next};
ghost use Rattle.rounds.specs.Turns.{turn_of, state_in};

// The last allowed period.
fn last_open(marks: &[u64]) -> Option<usize>
    ensures { result ≡ last_open (at marks.now) (length marks.now) }
{
    marks.iter().rposition(|mark| *mark == 0)
}

// The period to forbid next, and whether its round has forbidden one before it.
#[derive(Clone, Copy)]
pub struct Turn {
    pub period: usize,
    pub dropped: bool,
}

// After a round: another one, from the last period down, unless this one has forbidden none.
fn another(marks: &[u64], dropped: bool) -> Option<Turn>
    ensures { turn_of result ≡ another_round (last_open (at marks.now) (length marks.now)) dropped }
{
    if !dropped {
        return None;
    }
    last_open(marks).map(|period| Turn {
        period,
        dropped: false,
    })
}

// In a round that has yet to look at the first `ahead` periods; `dropped` says whether it has forbidden one of the others.
#[tactic(auto, using(crate::specs::Turns::open_front))]
pub fn next(marks: &[u64], ahead: usize, dropped: bool) -> Option<Turn>
    requires { ahead ≤ length marks.now }
    ensures { (plan : List ℕ) → turn_of result ≡ next (length marks.now) (state_in marks.now plan ahead dropped) }
{
    last_open(&marks[..ahead])
        .map(|period| Turn { period, dropped })
        .or_else(|| another(marks, dropped))
}

// The plan is the best so far. By hand, here and below: std copies no amounts into cells of another width; and by index, for the reason beside
// `equal_rows::copy`.
pub fn keep(plan: &[u16], best: &mut [u64])
    requires { length best.old ≡ length plan.now }
    ensures { best.new ≡ plan.now }
{
    for (k, &amount) in plan.iter().enumerate() {
        best[k] = u64::from(amount);
    }
}

// The best plan into as many slots.
pub fn hand_out(best: &[u64], slots: &mut [u16])
    requires same_length { length slots.old ≡ length best.now }
    requires narrow { (k : ℕ) → k < length best.now → at best.now k < 2 ^ 16 }
    ensures { slots.new ≡ best.now }
{
    for (k, &amount) in best.iter().enumerate() {
        slots[k] = amount as u16;
    }
}
