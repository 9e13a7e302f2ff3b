//! Made-up tiny days: the call with 1, 2, 3 .. trials allowed, beside the plain search.
use crate::call;
use day::{Day, Refusal, Totals, Trials};
use plain::Best;
use std::io;
use trial_paths::tiny::days_of;
use trial_text::cells::{LentMemory, MARK};
use trial_text::counts::Counts;
use trial_text::line::Line;
use trial_text::show::text;

// What is counted, of days and of the calls on them.
#[derive(Clone, Copy)]
enum Seen {
    // Days with a plan.
    Plans = 0,
    // Calls that plan. Of these:
    Planned = 1,
    // those whose plan holds, with the totals given;
    Holds = 2,
    // those whose cost less the gap is that of the search's plan with all starts free;
    Bound = 3,
    // those whose cost is not below the search's, which is not below that;
    Between = 4,
    // (of all calls) those that leave lent cells as they must;
    Kept = 5,
    // (of those that refuse) those without a plan (7 or 14) where the search finds none,
    WithoutPlan = 6,
    // and those of store limits (16);
    LowStore = 7,
    // those that go on from the call with one trial fewer;
    GoesOn = 8,
    // those with one trial that give the plan that the search finds with all starts free;
    First = 9,
    // those that stop before the allowed trials are used up;
    Stops = 10,
    // those cheaper than with one trial fewer.
    Cheaper = 11,
}

// Why each enum that is counted has one of these stands beside `Counts` in crates/trial_text.
impl From<Seen> for u8 {
    fn from(seen: Seen) -> u8 {
        seen as u8
    }
}

// What the search finds: the plan of the day, and its plan with all starts free.
#[derive(Clone, Copy)]
struct Found {
    plan: Option<Best>,
    free: Option<Best>,
}

// What a call gave: the cost of its plan, and the trials used.
#[derive(Clone, Copy, PartialEq, Eq)]
struct Given {
    cost: u64,
    used: u64,
}

// A call's turn: how many trials are allowed, and what the call before it gave, with one fewer.
#[derive(Clone, Copy)]
struct Turn {
    allowed: u64,
    earlier: Option<Given>,
}

impl Turn {
    // Whether one more allowed trial is used, or changes nothing; in no case is the plan dearer.
    fn goes_on(self, given: Given) -> bool {
        match self.earlier {
            None => given.used == 1 && self.allowed == 1,
            Some(earlier) if given.used == self.allowed => {
                given.used.checked_sub(earlier.used) == Some(1) && given.cost <= earlier.cost
            }
            Some(earlier) => given == earlier,
        }
    }

    // Whether the call is cheaper than the one before it.
    fn is_cheaper(self, given: Given) -> bool {
        self.earlier
            .is_some_and(|earlier| given.cost < earlier.cost)
    }
}

// Whether a plan has been found to hold, with such totals.
fn holds(day: Day<'_>, plan: &[u16], totals: Totals) -> bool {
    weigher::weigh(day, plan).is_ok_and(|found| found == totals)
}

// Of a call that refuses.
fn count_refused(refusal: Refusal, plan: Option<Best>, counts: &mut Counts) {
    match refusal {
        Refusal::Shortage(_) | Refusal::SurplusInventory => {
            counts.count_if(Seen::WithoutPlan, plan.is_none())
        }
        Refusal::LowStore(_) => counts.count(Seen::LowStore),
        _ => (),
    }
}

// Of a call that plans.
fn count_planned(totals: Totals, trials: Trials, found: Found, turn: Turn, counts: &mut Counts) {
    let cost = totals.cost;
    let used = trials.used;
    let given = Given { cost, used };
    let bound = cost.saturating_sub(trials.gap);
    let free = found.free.map(|free| free.totals.cost);
    counts.count(Seen::Planned);
    counts.count_if(Seen::Bound, free == Some(bound));
    counts.count_if(
        Seen::Between,
        found.plan.is_some_and(|plan| bound <= plan.totals.cost && plan.totals.cost <= cost),
    );
    counts.count_if(Seen::GoesOn, turn.goes_on(given));
    counts.count_if(Seen::Stops, used < turn.allowed);
    counts.count_if(Seen::Cheaper, turn.is_cheaper(given));
}

// One call; it gives what the next one is compared with.
fn call(
    day: Day<'_>,
    found: Found,
    earlier: Option<Given>,
    allowed: usize,
    counts: &mut Counts,
) -> Option<Given> {
    let mut memory = LentMemory {
        costs: &mut [MARK.into(); 14],
        choices: &mut [],
        slots: &mut [MARK.into(); 5],
    };
    let outcome = call::run_lent(day, &mut memory, allowed);
    counts.count_if(Seen::Kept, outcome.kept);
    let (totals, trials) = match outcome.answer {
        Ok(planned) => planned,
        Err(refusal) => {
            count_refused(refusal, found.plan, counts);
            return earlier;
        }
    };
    let slots = &*memory.slots;
    counts.count_if(Seen::Holds, holds(day, slots, totals));
    let turn = Turn {
        // `as`: from usize std has no From for u64.
        allowed: allowed as u64,
        earlier,
    };
    count_planned(totals, trials, found, turn, counts);
    if allowed == 1 {
        let bound = Totals {
            cost: totals.cost.saturating_sub(trials.gap),
            setups: totals.setups,
        };
        let agrees = plain::agrees(found.free, day, Ok(bound), slots);
        counts.count_if(Seen::First, agrees);
    }
    Some(Given {
        cost: totals.cost,
        used: trials.used,
    })
}

// The calls on one day, with 1 to so many trials allowed.
fn calls(day: Day<'_>, trials: usize, counts: &mut Counts) {
    let starts = [0; 4];
    let starts = &starts[..day.periods().min(4)];
    let found = Found {
        plan: plain::search(day),
        free: plain::search(day.with_setup(starts)),
    };
    counts.count_if(Seen::Plans, found.plan.is_some());
    let mut earlier = None;
    for allowed in 1..=trials {
        earlier = call(day, found, earlier, allowed, counts);
    }
}

// Made-up days, laid out as those of the paths; the most trials allowed are in field 5.
pub fn made_up(rt: &impl Print, line: &[u8]) -> io::Result<()> {
    let asked = Line::whole(line);
    let mut counts = Counts::new();
    for tiny in days_of(asked) {
        calls(tiny.day(), asked.amount(5), &mut counts);
    }
    text(rt, line)?;
    println!(rt; "{counts}")
}
