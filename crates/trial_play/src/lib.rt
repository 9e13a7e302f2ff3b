//! Trials of played days: on the plan and the actual needs that a line gives, and on made-up tiny days.
#![tactic(auto)]

use day::{Day, Ends};
use play::Flows;
use std::io;
use trial_paths::tiny::days_of;
use trial_plans::Failed;
use trial_text::counts::Counts;
use trial_text::days::summed;
use trial_text::line::{Line, Numbers, amounts};
use trial_text::show::text;

// The plan of field 6 against the needs of field 7.
pub fn play<R: Print>(rt: &R, line: Line<'_>, day: Day<'_>) -> io::Result<()> {
    let plan: Numbers<u16> = amounts(line.field_bytes(6));
    let actual: Numbers<u16> = amounts(line.field_bytes(7));
    text(rt, line.name)?;
    print!(rt; " play")?;
    match play::play(day, plan.as_slice(), actual.as_slice()) {
        Err(fault) => println!(rt; "{}", Failed(fault)),
        Ok(flows) => {
            print!(rt; " made {} delivered {}", flows.produced, flows.delivered)?;
            println!(rt;
                " missed {} spilled {} left {}",
                flows.lost, flows.disposed, flows.left
            )
        }
    }
}

// What is counted.
#[derive(Clone, Copy)]
enum Seen {
    // Days with a plan.
    Plans = 0,
    // Plans played against the needs that they were made for, balanced and as planned.
    AsPlanned = 1,
    // Plans played against other needs, balanced; those that then miss; those that spill.
    Balanced = 2,
    Missed = 3,
    Spilled = 4,
    // Days on which nothing is played, and the search found no plan.
    Unplayed = 5,
}

// Why each enum that is counted has one of these stands beside `Counts` in crates/trial_text.
impl From<Seen> for u8 {
    fn from(seen: Seen) -> u8 {
        seen as u8
    }
}

// Whether both sums come out: opening + made = delivered + spilled + left, and delivered + missed = needed.
fn balanced(flows: Flows, needs: &[u16], ends: Ends) -> bool {
    let gone = flows.delivered.wrapping_add(flows.disposed);
    // `as`: from usize std has no From for u64.
    u64::from(ends.opening).wrapping_add(flows.produced) == gone.wrapping_add(flows.left)
        && flows.delivered.wrapping_add(flows.lost) == summed(needs) as u64
}

// Whether a plan did what it was made for: nothing missed or spilled, and the closing charge left.
fn as_planned(flows: Flows, ends: Ends) -> bool {
    flows.lost == 0 && flows.disposed == 0 && flows.left == u64::from(ends.closing)
}

// The search's plan of a day, against the day's needs and against others.
fn compare(day: Day<'_>, other: &[u16], counts: &mut Counts) {
    let best = plain::search(day);
    let plan = best.map_or([0; 4], |best| best.plan);
    counts.count_if(Seen::Plans, best.is_some());
    if let Ok(flows) = play::play(day, &plan, day.demand) {
        let right = balanced(flows, day.demand, day.ends) && as_planned(flows, day.ends);
        counts.count_if(Seen::AsPlanned, right);
    }
    match play::play(day, &plan, other) {
        Ok(flows) => {
            counts.count_if(Seen::Balanced, balanced(flows, other, day.ends));
            counts.count_if(Seen::Missed, 0 < flows.lost);
            counts.count_if(Seen::Spilled, 0 < flows.disposed);
        }
        Err(_) => counts.count_if(Seen::Unplayed, best.is_none()),
    }
}

// Made-up days, laid out as those of the paths; each day's plan is played against the needs of the day after it too.
pub fn made_up(rt: &impl Print, line: &[u8]) -> io::Result<()> {
    let days = days_of(Line::whole(line));
    let kind = days.kind;
    let mut counts = Counts::new();
    for tiny in days {
        let day = tiny.day();
        let other = kind.make_up(tiny.seed).demand;
        compare(day, &other[..day.periods().min(4)], &mut counts);
    }
    text(rt, line)?;
    println!(rt; "{counts}")
}
