//! What every path's loops run on in place of a day's demands and upkeep: the net needs, which are what each period adds to what must have
//! been made, and the rates, which are what a unit left after each period costs to hold. For the full path also the ceilings: the most that the
//! store limits let be made by the end of each period.
#![tactic(auto)]

ghost use Rattle.std.specs.Prelude.{◌≡◌, ◌≤◌, length};
ghost use Rattle.day.specs.Day.{periods, required};
ghost use Rattle.day.specs.Lent.{lent_day};
ghost use Rattle.theory.specs.Net.{net_needs, rates_of, NetFits, HalfRates, NetTables, problem_of};
ghost use Rattle.theory.specs.Problem.{lent_problem};
ghost use Rattle.theory.specs.Store.{ceilings_of};

use checks::MAX_PERIODS;
use day::Day;
use theory::Problem;

// What is asked of the day, here and below, is what the tests of any path leave of it: a type for it would be made in each path's work, for a call or two.
// The net need of every period. The day by index, here and below: of cells that iter_mut lends to a zip nothing is known afterwards.
fn fill_needs(day: Day, net: &mut [u16])
    requires net_len { length net.old ≡ periods (lent_day day) }
    requires net_fits { NetFits (lent_day day) }
    ensures { net.new ≡ net_needs (lent_day day.entry) }
{
    let n = day.periods();
    let mut demanded: u64 = 0;
    let mut made: u64 = 0;
    for (i, cell) in net.iter_mut().enumerate() {
        demanded += u64::from(day.demand[i]);
        let next = checks::net_to(demanded, i + 1 == n, day.ends);
        *cell = (next - made) as u16;
        made = next;
    }
}

// The rate of every period, from the last one back: its own upkeep, and that of the next, which pays on the charge before it.
fn fill_rates(holding: &[u32], rates: &mut [u32])
    requires rates_len { length rates.old ≡ length holding.now }
    requires half_rates { HalfRates holding.now }
    ensures { rates.new ≡ rates_of holding.now }
{
    let mut next: u32 = 0;
    // By index: of rates that iter_mut lends to `rev` nothing is known afterwards.
    for i in (0..holding.len()).rev() {
        rates[i] = holding[i] + next;
        next = holding[i];
    }
}

// The net needs and the rates of a day. It stays public, as its promise stands.
pub fn fill(day: Day, net: &mut [u16], rates: &mut [u32])
    requires net_len { length net.old ≡ periods (lent_day day) }
    requires rates_len { length rates.old ≡ length day.holding.now }
    requires net_fits { NetFits (lent_day day) }
    requires half_rates { HalfRates day.holding.now }
    ensures { NetTables (lent_day day.entry) net.new rates.new }
{
    fill_needs(day, net);
    fill_rates(day.holding, rates);
}

// The cells in which the net needs and the rates of a day stand: there is no heap, so of tables for the longest day the fronts.
#[derive(Drop)]
pub struct Tables {
    net: [u16; MAX_PERIODS],
    rates: [u32; MAX_PERIODS],
}

impl Tables {
    // What they hold is free: `problem` fills what is read.
    pub fn new() -> Tables {
        Tables {
            net: [0; MAX_PERIODS],
            rates: [0; MAX_PERIODS],
        }
    }

    // The problem that the loops run on, of a day whose holding costs are as many as its periods.
    pub fn problem<'a>(&'a mut self, day: Day<'a>) -> Problem<'a>
        requires holding_len { length day.holding.now ≡ periods (lent_day day) }
        requires net_fits { NetFits (lent_day day) }
        requires half_rates { HalfRates day.holding.now }
        ensures { lent_problem result ≡ problem_of (lent_day day.entry) }
    {
        let n = day.periods();
        let Tables { net, rates } = self;
        let net = &mut net[..n];
        let rates = &mut rates[..n];
        fill(day, net, rates);
        Problem {
            demand: net,
            capacity: day.capacity,
            setup: day.setup,
            unit: day.unit,
            holding: rates,
        }
    }
}

// The most that may have been made after every period: R + s − A, and never more than T.
pub fn fill_ceilings(day: Day, ceilings: &mut [u16])
    requires ceilings_len { length ceilings.old ≡ periods (lent_day day) }
    requires store_len { length day.store.now ≡ periods (lent_day day) }
    requires net_fits { NetFits (lent_day day) }
    requires opening_bound { day.ends.opening ≤ required (lent_day day) }
    ensures { ceilings.new ≡ ceilings_of (lent_day day.entry) }
{
    let total = checks::total(day);
    let opening = u64::from(day.ends.opening);
    let mut demanded: u64 = 0;
    for (i, cell) in ceilings.iter_mut().enumerate() {
        demanded += u64::from(day.demand[i]);
        let limit = demanded + u64::from(day.store[i]);
        *cell = total.min(limit.saturating_sub(opening)) as u16;
    }
}
