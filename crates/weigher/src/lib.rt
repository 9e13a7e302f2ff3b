//! Weighs a given plan of a day: whether it keeps the conditions, what it costs, how two plans compare.
//! What the answers mean is in specs/.
#![tactic(auto)]

ghost use Rattle.std.specs.Prelude.{◌≡◌, ◌^◌, ◌<◌, pos, ◌-ℤ◌};
ghost use Rattle.day.specs.Sums.{at};
ghost use Rattle.day.specs.Lent.{lent_day};
ghost use Rattle.day.specs.Refusals.{checked};
ghost use Rattle.weigher.specs.declared.Fault.TheVariants.{Refused as refused, Broken as broken};
ghost use Rattle.weigher.specs.Verdict.{totals_of};
ghost use Rattle.weigher.specs.Answers.{Weighs, Compares, compare_of, weigh_refusal, rule_number};
ghost use Rattle.weigher.specs.Walk.{ruling_of, ruling_at, Room, Weighable, FeasiblePlan, NextPeriod, Signed};
ghost use Rattle.weigher.specs.Running.{walk_of};

use day::{Day, Entries, Refusal, Totals};

// The rules that a plan can break, in the order in which one period is judged.
#[derive(Clone, Copy)]
pub enum Rule {
    // An amount above its period's capacity.
    AboveCapacity,
    // The inventory would be below 0, or is below the closing one after the last period.
    Short,
    // The inventory left after a period is above its store limit.
    AboveStore,
    // The inventory after the last period is above the closing one (operators say: charge over at the end).
    Over,
}

// A number, since C and the operators read it so.
impl Rule {
    pub fn number(self) -> u8
        ensures { result ≡ rule_number self }
    {
        match self {
            Rule::AboveCapacity => 101,
            Rule::Short => 102,
            Rule::AboveStore => 104,
            Rule::Over => 103,
        }
    }
}

// The first rule that a plan breaks, with the period.
#[derive(Clone, Copy)]
pub struct Breach {
    pub rule: Rule,
    pub period: u16,
}

// Why the weigher gives no figures: the call is refused, or a plan breaks a rule.
#[derive(Clone, Copy)]
pub enum Fault {
    Refused(Refusal),
    Broken(Breach),
}

impl From<Refusal> for Fault {
    ghost from_gives = { λ r f. f ≡ refused r };

    fn from(r: Refusal) -> Fault {
        Fault::Refused(r)
    }
}

impl From<Breach> for Fault {
    ghost from_gives = { λ b f. f ≡ broken b };

    fn from(b: Breach) -> Fault {
        Fault::Broken(b)
    }
}

// The sums through the periods judged so far. What was made is counted on top of the opening inventory: A + X, so that the
// inventory is `supplied` less `demanded`.
#[derive(Clone, Copy)]
struct Sums {
    cost: u64,
    setups: u64,
    supplied: u64,
    demanded: u64,
}

// One period: its rules in their order, then its terms of sum (1) in the report's, which stands beside them at `walk`. `last` comes beside Z, for the reason
// beside `checks::due`.
fn judge(p: Entries, amount: u16, last: bool, s: Sums, closing: u16) -> Result<Sums, Rule>
    requires { Room s }
    ensures { result ≡ ruling_of p amount last s closing }
{
    let supplied = s.supplied + u64::from(amount);
    let demanded = s.demanded + u64::from(p.demand);
    let due = checks::due(demanded, closing, last);
    let above_capacity = p.capacity < amount;
    let short = supplied < due;
    if above_capacity {
        return Err(Rule::AboveCapacity);
    }
    if short {
        return Err(Rule::Short);
    }
    // Neither is below 0: no period so far is short.
    let before = s.supplied - s.demanded;
    let left = supplied - demanded;
    let above_store = u64::from(p.store) < left;
    let over = last && due < supplied;
    if above_store {
        return Err(Rule::AboveStore);
    }
    if over {
        return Err(Rule::Over);
    }
    let making = terms::making_cost(p.setup, p.unit, u64::from(amount));
    let upkeep = terms::holding_cost(p.holding, before + left);
    let cost = s.cost + making + upkeep;
    let setups = s.setups + terms::setup_of(amount);
    Ok(Sums {
        cost,
        setups,
        supplied,
        demanded,
    })
}

// A plan comes beside its day, here and below: `compare` reads two of one day.
// The period at index i: from the sums through the periods before it to those through it, or to the rule that it breaks (`ruling_at`).
fn advance(day: Day, plan: &[u16], i: usize, s: Sums) -> Result<Sums, Rule>
    requires { NextPeriod (lent_day day) plan.now i s }
    ensures { result ≡ ruling_at (lent_day day.entry) (at plan.now) i }
{
    judge(
        day.entries(i),
        plan[i],
        i + 1 == day.periods(),
        s,
        day.ends.closing,
    )
}

// The verdict, period by period. Sum (1) of the report, with upkeep on what is left before and after a period, beside the code that adds it up:
//
//     I_0 = A                               supplied = opening, demanded = 0
//     Σ for i = 1, .., n                    the loop, period i at index i - 1; by `judge`, from the sums before it, s:
//         A + X_i                           supplied = s.supplied + amount
//         R_i                               demanded = s.demanded + p.demand
//         I_(i−1) = A + X_(i−1) − R_(i−1)   before = s.supplied - s.demanded
//         I_i = A + X_i − R_i               left = supplied - demanded
//         p_i(x_i)                          making = making_cost(p.setup, p.unit, amount)
//         h_i × (I_(i−1) + I_i)             upkeep = holding_cost(p.holding, before + left)
//         the sum through period i          cost = s.cost + making + upkeep
// A loop and no `try_fold`, so that each turn stands as in the sum; by index: of a day's six tables `entries` gives period i.
fn walk(day: Day, plan: &[u16]) -> Result<Totals, Breach>
    requires { Weighable (lent_day day) plan.now }
    ensures { result ≡ walk_of (lent_day day.entry) (at plan.now) }
{
    let mut s = Sums {
        cost: 0,
        setups: 0,
        supplied: u64::from(day.ends.opening),
        demanded: 0,
    };
    for i in 0..day.periods() {
        s = advance(day, plan, i, s).map_err(|rule| Breach {
            rule,
            period: (i + 1) as u16,
        })?;
    }
    Ok(Totals {
        cost: s.cost,
        setups: s.setups,
    })
}

// The totals of a plan that keeps every rule.
pub fn totals(day: Day, plan: &[u16]) -> Totals
    requires { FeasiblePlan (lent_day day) plan.now }
    ensures { result ≡ totals_of (lent_day day.entry) (at plan.now) }
{
    walk(day, plan).unwrap()
}

// 1, 2, 3, 4, 14, 6
fn tests(day: Day, plan: &[u16]) -> Result<(), Refusal>
    ensures { result ≡ checked (weigh_refusal (lent_day day.entry) plan.now) }
{
    checks::day(day, checks::MAX_TOTAL)?;
    if plan.len() < day.periods() {
        return Err(Refusal::FewSlots);
    }
    Ok(())
}

// Weighs a plan of a day by reference: by value `compare` would hold the day twice.
fn weighed(day: &Day, plan: &[u16]) -> Result<Totals, Fault>
    ensures { Weighs (lent_day day.now) plan.now result }
{
    tests(*day, plan)?;
    Ok(walk(*day, plan)?)
}

// Weighs a plan. Cells of it past the last period are not read.
pub fn weigh(day: Day, plan: &[u16]) -> Result<Totals, Fault>
    ensures { Weighs (lent_day day.entry) plan.now result }
{
    weighed(&day, plan)
}

// One cost less another.
fn difference(a: u64, b: u64) -> i64
    requires { (a < 2 ^ 63) × (b < 2 ^ 63) }
    ensures { result ≡ pos a -ℤ pos b }
{
    (a as i64) - (b as i64)
}

// Two answers compared: a plan that is refused goes before both verdicts, and the first plan's answer before the second's.
fn comparison(first: Result<Totals, Fault>, second: Result<Totals, Fault>) -> Result<i64, Fault>
    requires { Signed first × Signed second }
    ensures { result ≡ compare_of first second }
{
    match (first, second) {
        (Err(Fault::Refused(refusal)), _) => Err(Fault::Refused(refusal)),
        (_, Err(Fault::Refused(refusal))) => Err(Fault::Refused(refusal)),
        (Err(fault), _) => Err(fault),
        (_, Err(fault)) => Err(fault),
        (Ok(a), Ok(b)) => Ok(difference(a.cost, b.cost)),
    }
}

// Weighs two plans of one day: the first plan's cost less the second's, below zero where the first is cheaper.
pub fn compare(day: Day, plan: &[u16], other: &[u16]) -> Result<i64, Fault>
    ensures { Compares (lent_day day.entry) plan.now other.now result }
{
    let first = weighed(&day, plan);
    let second = weighed(&day, other);
    comparison(first, second)
}
