//! For the trials of the paths: a plain search over all plans of a tiny day, and the comparison of a path's answer with the search's.
//! A tiny day has one to four periods, in which it makes at most 10 in all.
#![tactic(auto)]

ghost use Rattle.std.specs.Prelude.{◌≡◌, ◌↔◌, ◌≤◌, IsTrue};
ghost use Rattle.day.specs.Day.{periods};
ghost use Rattle.day.specs.Lent.{lent_day};
ghost use Rattle.day.specs.Refusals.{number_of};
ghost use Rattle.plain.specs.Agreement.{SamePlan, without_plan, Agreement};
ghost use Rattle.plain.specs.Search.{plan_of, plans_of, found_at};
ghost use Rattle.plain.specs.Optimal.{Searched};

use day::{Day, Refusal, Totals};

// What the search finds: the day's plan in the first cells, with its cost and setups.
// An array, not a vector of n amounts: `plan_of` gives four and the weigher takes four, and n is the day's, which stands by wherever a plan is read.
#[derive(Clone, Copy)]
pub struct Best {
    pub totals: Totals,
    pub plan: [u16; 4],
}

// Plan number m: its amounts are the digits of m to base 11, the last period's the highest. So of two plans the one with the
// smaller amount in the last period where they differ has the smaller number.
fn plan_of(m: u32) -> [u16; 4]
    ensures { result ≡ plan_of m }
{
    let digit = |place: u32| (m / place % 11) as u16;
    [digit(1), digit(11), digit(121), digit(1331)]
}

// How many plans of n periods there are.
fn plans(n: usize) -> u32
    ensures { result ≡ plans_of n }
{
    match n {
        1..=4 => 11u32.pow(n as u32),
        _ => 0,
    }
}

// Plan number m with its cost and setups, where it holds.
fn found(day: Day, m: u32) -> Option<Best>
    ensures { result ≡ found_at (lent_day day.entry) m }
{
    let plan = plan_of(m);
    match weigher::weigh(day, &plan) {
        Ok(totals) => Some(Best { totals, plan }),
        Err(_) => None,
    }
}

// The plan of a tiny day: every plan with amounts up to 10 is weighed, in the order of their numbers, and the first of the cheapest kept.
pub fn search(day: Day) -> Option<Best>
    ensures { Searched (lent_day day.entry) result }
{
    (0..plans(day.periods()))
        .filter_map(|m| found(day, m))
        .min_by_key(|best| best.totals.cost)
}

// Whether the first n slots hold the plan found.
fn same_plan(plan: [u16; 4], n: usize, slots: &[u16]) -> bool
    requires { n ≤ 4 }
    ensures { IsTrue result ↔ SamePlan n plan slots.now }
{
    slots.starts_with(&plan[..n])
}

// Whether a refusal is that of a day without a plan: 14 where A is above R + Z, else 7.
fn says_no_plan(refusal: Refusal, day: Day) -> bool
    requires { periods (lent_day day) ≤ 4 }
    ensures { IsTrue result ↔ number_of refusal ≡ without_plan (lent_day day.entry) }
{
    let surplus = checks::required(day) < u64::from(day.ends.opening);
    match refusal {
        Refusal::SurplusInventory => surplus,
        Refusal::Shortage(_) => !surplus,
        _ => false,
    }
}

// Whether a path's answer on a day of at most four periods is what the search found: its plan, cost and setups, or where there is none
// refusal 14 or 7.
pub fn agrees(best: Option<Best>, day: Day, answer: Result<Totals, Refusal>, slots: &[u16]) -> bool
    ensures { IsTrue result ↔ Agreement (lent_day day.entry) best answer slots.now }
{
    let n = day.periods();
    if 4 < n {
        return false;
    }
    match (answer, best) {
        (Err(refusal), None) => says_no_plan(refusal, day),
        (Ok(totals), Some(found)) => { totals == found.totals && same_plan(found.plan, n, slots) }
        _ => false,
    }
}
