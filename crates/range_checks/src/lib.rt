//! The tests of a call on needs known as ranges, by their numbers: 1; 2 and 3 on both tables of needs; 4, 14, 5; 17, 18; 7.
//! 1, 4, 14, 5 and 7 read the highest.
#![tactic(auto)]

ghost use Rattle.std.specs.Prelude.{◌≡◌, [], ◌∷◌, ◌++◌, ◌≤◌, length};
ghost use Rattle.day.specs.Day.{periods, required};
ghost use Rattle.day.specs.Lent.{lent_day};
ghost use Rattle.day.specs.Refusals.{checked, first, pair_tests, opened, reversed, shortage};
ghost use Rattle.day.specs.Ranges.{bound_tests, range_refusal};
ghost use Rattle.checks.specs.Passed.{Readable, Balanced};
ghost use Rattle.range_checks.specs.Earlier.{earlier};

use day::{Day, PathKind, Refusal, Sizes};

// Two searches as one: of two refusals that with the earlier period.
fn earlier(first: Result<(), Refusal>, second: Result<(), Refusal>) -> Result<(), Refusal>
    ensures { result ≡ earlier first second }
{
    match (first, second) {
        (Err(a), Err(b)) if b.period() < a.period() => Err(b),
        _ => first.and(second),
    }
}

// 1, then 2 and 3 on both, where a second table of needs is read: the lowest, or the actual ones of a played day.
// It comes beside the day, as a call gives it, here and below: a struct of the two would be made at each call and opened at each test.
pub fn tables(needs: &[u16], day: Day) -> Result<(), Refusal>
    ensures { result ≡ checked (first (pair_tests needs.now (lent_day day.entry))) }
{
    checks::count(day.periods())?;
    checks::lengths(day)?;
    if needs.len() != day.periods() {
        return Err(Refusal::TableLength);
    }
    let first = checks::values(day);
    let second = checks::values(day.with_demand(needs));
    earlier(first, second)
}

// 17
fn opened(day: Day) -> Result<(), Refusal>
    ensures { result ≡ checked (opened (lent_day day.entry)) }
{
    if day.ends.opening > 0 {
        return Err(Refusal::OpeningInventory);
    }
    Ok(())
}

// 18, for tables of one length: the first lowest need above its highest
fn reversed(lowest: &[u16], day: Day) -> Result<(), Refusal>
    requires lowest_len { length lowest.now ≡ periods (lent_day day) }
    requires readable { Readable (lent_day day) }
    ensures { result ≡ checked (reversed lowest.now (lent_day day.entry)) }
{
    let found = lowest
        .iter()
        .zip(day.demand)
        .position(|(low, high)| high < low);
    checks::unless_found(found).map_err(Refusal::ReversedRange)
}

// 5, 17, 18, 7, once 1 to 4 and 14 have passed
fn bounds(lowest: &[u16], day: Day, lent: Sizes) -> Result<(), Refusal>
    requires lowest_len { length lowest.now ≡ periods (lent_day day) }
    requires balanced { Balanced (lent_day day) }
    ensures { let d = lent_day day.entry in
        result ≡ checked (first (bound_tests lowest.now d lent ++ (shortage d ∷ []))) }
{
    // `as`: between u64 and usize std has no From.
    let total = checks::total(day) as usize;
    path_checks::areas(
        lent,
        path_checks::cells(PathKind::Full, day.periods(), total),
    )?;
    opened(day)?;
    reversed(lowest, day)?;
    path_checks::shortage(day)
}

// The call's tests in order.
pub fn tests(lowest: &[u16], day: Day, lent: Sizes) -> Result<(), Refusal>
    ensures { result ≡ checked (range_refusal lowest.now (lent_day day.entry) lent) }
{
    tables(lowest, day)?;
    checks::totals(day, checks::MAX_TOTAL)?;
    bounds(lowest, day, lent)
}
