//! The tests on lent tables and the ends of a day, by their numbers: each alone, and in the order in which calls apply them.
//! Every function answers what the conditions say that it cites from the crate day. What a caller learns from an answer is in specs/.
#![tactic(auto)]

ghost use Rattle.std.specs.Prelude.{◌≡◌, ◌-◌, ◌*◌, ◌^◌, ◌≤◌, ◌<◌, length, IfSome};
ghost use Rattle.day.specs.Sums.{Term, at, sum_to};
ghost use Rattle.day.specs.Day.{periods, required, due_of, total, max_periods, max_capacity, max_sum};
ghost use Rattle.day.specs.Lent.{lent_day};
ghost use Rattle.day.specs.Refusals.{checked, first, above, bad_count, bad_lengths, bad_value, table_tests, total_tests, day_tests};
ghost use Rattle.checks.specs.Passed.{Readable};
ghost use Rattle.checks.specs.Search.{unless_found};

use day::{Day, Ends, Entries, Refusal};

// the limits; upkeep is paid for half a period
pub const MAX_PERIODS: usize = 96;

const MAX_DEMAND: u16 = 4096;

const MAX_SETUP: u32 = 1_000_000_000;

const MAX_RATE: u32 = 1_000_000;

const MAX_HALF_RATE: u32 = 500_000;

pub const MAX_TOTAL: u64 = 4096;

// 1: the number of periods
pub fn count(n: usize) -> Result<(), Refusal>
    ensures { result ≡ checked (bad_count n) }
{
    if n == 0 || MAX_PERIODS < n {
        return Err(Refusal::PeriodCount);
    }
    Ok(())
}

// 2: every table is as long as the demand table
pub fn lengths(day: Day) -> Result<(), Refusal>
    ensures { result ≡ checked (bad_lengths (lent_day day.entry)) }
{
    let n = day.periods();
    if day.capacity.len() != n
        || day.setup.len() != n
        || day.unit.len() != n
        || day.holding.len() != n
        || day.store.len() != n
    {
        return Err(Refusal::TableLength);
    }
    Ok(())
}

// Whether one of a period's values is above its limit. A capacity or a store limit of 16 bits never is.
fn above(p: Entries) -> bool
    ensures { result ≡ above p }
{
    MAX_DEMAND < p.demand || MAX_SETUP < p.setup || MAX_RATE < p.unit || MAX_HALF_RATE < p.holding
}

// What a search over the periods says: it found none, or the first, counted from 1.
pub fn unless_found(found: Option<usize>) -> Result<(), u16>
    requires { IfSome found (λ i. i < max_periods) }
    ensures { result ≡ unless_found found }
{
    match found {
        Some(i) => Err((i + 1) as u16),
        None => Ok(()),
    }
}

// What is asked of the day, here and below, is what earlier tests have found: no type has it before them.
// 3, for at most 96 periods in tables of one length: the first period with a value above its limit
pub fn values(day: Day) -> Result<(), Refusal>
    requires { Readable (lent_day day) }
    ensures { result ≡ checked (bad_value (lent_day day.entry)) }
{
    let found = (0..day.periods()).position(|i| above(day.entries(i)));
    unless_found(found).map_err(Refusal::AboveLimit)
}

// 1, 2, 3, which open every call on tables
pub fn tables(day: Day) -> Result<(), Refusal>
    ensures { result ≡ checked (first (table_tests (lent_day day.entry))) }
{
    count(day.periods())?;
    lengths(day)?;
    values(day)
}

// The sum of a table, R over the day of the needs; it needs more than 16 bits
pub fn summed(table: &[u16]) -> u64
    requires { length table.now ≤ max_periods }
    ensures { Term (sum_to (at table.now) (length table.now)) (max_periods * max_capacity) result }
{
    table.iter().map(|r| u64::from(*r)).sum()
}

// R + Z
pub fn required(day: Day) -> u64
    requires { periods (lent_day day) ≤ max_periods }
    ensures { Term (required (lent_day day.entry)) max_sum result }
{
    summed(day.demand) + u64::from(day.ends.closing)
}

// T, what is made over the day
pub fn total(day: Day) -> u64
    requires few { periods (lent_day day) ≤ max_periods }
    requires opening_bound { day.ends.opening ≤ required (lent_day day) }
    ensures { Term (total (lent_day day.entry)) max_sum result }
{
    required(day) - u64::from(day.ends.opening)
}

// 4, 14: R + Z is not above the call's limit, nor A above R + Z
pub fn totals(day: Day, limit: u64) -> Result<(), Refusal>
    requires { periods (lent_day day) ≤ max_periods }
    ensures { result ≡ checked (first (total_tests limit (lent_day day.entry))) }
{
    let required = required(day);
    if limit < required {
        return Err(Refusal::TotalDemand);
    }
    if required < u64::from(day.ends.opening) {
        return Err(Refusal::SurplusInventory);
    }
    Ok(())
}

// 1, 2, 3, 4, 14, which open every call on a day
pub fn day(day: Day, limit: u64) -> Result<(), Refusal>
    ensures { result ≡ checked (first (day_tests limit (lent_day day.entry))) }
{
    tables(day)?;
    totals(day, limit)
}

// What must have been there by the end of a period: the demand so far, and Z with it after the last. A flag beside Z and no Option, here and in
// `net_to`: Z stands in the day whether it counts yet or not.
pub fn due(demanded: u64, closing: u16, last: bool) -> u64
    requires { demanded < 2 ^ 24 }
    ensures { result ≡ due_of last demanded closing }
{
    if last {
        return demanded + u64::from(closing);
    }
    demanded
}

// What must have been made by the end of a period.
pub fn net_to(demanded: u64, last: bool, ends: Ends) -> u64
    requires { demanded < 2 ^ 24 }
    ensures { result ≡ due_of last demanded ends.closing - ends.opening }
{
    due(demanded, ends.closing, last).saturating_sub(u64::from(ends.opening))
}
