//! A day played through: a plan that holds, against a table of actual needs. What the answers mean is in specs/.
#![tactic(auto)]

ghost use Rattle.std.specs.Prelude.{◌≡◌, length};
ghost use Rattle.day.specs.Sums.{at};
ghost use Rattle.day.specs.Lent.{lent_day};
ghost use Rattle.play.specs.Play.{flows_to};
ghost use Rattle.play.specs.Answers.{Plays};
ghost use Rattle.play.specs.Run.{Room, Playable, next_of};

use day::Day;
use weigher::Fault;

// What a plan did against actual needs, summed over the day (operators say: made, delivered, missed, spilled), and the charge left after it.
#[derive(Clone, Copy)]
pub struct Flows {
    pub produced: u64,
    pub delivered: u64,
    pub lost: u64,
    pub disposed: u64,
    pub left: u64,
}

// One period: the cell makes its amount; the need is delivered as far as charge reaches; then charge above the store limit is disposed of.
fn advance(p: Flows, amount: u16, need: u16, store: u16) -> Flows
    requires { Room p }
    ensures { result ≡ next_of p amount need store }
{
    let amount = u64::from(amount);
    let need = u64::from(need);
    let there = p.left + amount;
    let delivered = need.min(there);
    let rest = there - delivered;
    let left = rest.min(u64::from(store));
    let lost = need - delivered;
    let disposed = rest - left;
    Flows {
        produced: p.produced + amount,
        delivered: p.delivered + delivered,
        lost: p.lost + lost,
        disposed: p.disposed + disposed,
        left,
    }
}

// The play of a plan, period by period.
pub fn run(plan: &[u16], actual: &[u16], store: &[u16], opening: u16) -> Flows
    requires { Playable plan.now actual.now store.now }
    ensures { result ≡ flows_to opening (at store.now) (at plan.now) (at actual.now) (length actual.now) }
{
    let mut p = Flows {
        produced: 0,
        delivered: 0,
        lost: 0,
        disposed: 0,
        left: u64::from(opening),
    };
    for ((amount, need), store) in plan.iter().zip(actual).zip(store) {
        p = advance(p, *amount, *need, *store);
    }
    p
}

// Plays a plan through. Cells of it past the last period are not read.
pub fn play(day: Day, plan: &[u16], actual: &[u16]) -> Result<Flows, Fault>
    ensures { Plays actual.now (lent_day day.entry) plan.now result }
{
    range_checks::tables(actual, day)?;
    weigher::weigh(day, plan)?;
    Ok(run(plan, actual, day.store, day.ends.opening))
}
