//! The tests of the paths: 5, 6, 7 and each path's own, and all of them in order, by their numbers.
#![tactic(auto)]

ghost use Rattle.std.specs.Prelude.{◌≡◌, [], ◌∷◌, ◌≤◌, length};
ghost use Rattle.day.specs.Day.{periods, required, max_periods, max_sum};
ghost use Rattle.day.specs.Lent.{lent_day};
ghost use Rattle.day.specs.Refusals.{checked, first, bad_areas, bad_slots, shortage, unequal, binding, paid_setup, low_store};
ghost use Rattle.day.specs.Outcome.{path_tests, refusal};
ghost use Rattle.day.specs.Paths.{path_of};
ghost use Rattle.checks.specs.Passed.{Readable, Balanced};
ghost use Rattle.path_checks.specs.Needed.{NeededBy};

use day::{Day, PathKind, Refusal, Sizes};

// the most that R + Z may be on a big day
const MAX_BIG_TOTAL: u64 = 60_000;

// How many cells of each area a path needs. Not `Sizes`: no slots are among them, and every path needs n.
#[derive(Clone, Copy)]
pub struct Needed {
    pub costs: usize,
    pub choices: usize,
}

// 5: the cells that are lent, and how many the call needs
pub fn areas(lent: Sizes, needed: Needed) -> Result<(), Refusal>
    ensures { result ≡ checked (bad_areas lent.costs needed.costs lent.choices needed.choices) }
{
    if lent.costs < needed.costs || lent.choices < needed.choices {
        return Err(Refusal::ShortArea);
    }
    Ok(())
}

// 5, 6: the slots too
fn memory(lent: Sizes, needed: Needed, n: usize) -> Result<(), Refusal>
    ensures { result ≡ checked (first (bad_areas lent.costs needed.costs lent.choices needed.choices ∷ bad_slots lent.slots n ∷ [])) }
{
    areas(lent, needed)?;
    if lent.slots < n {
        return Err(Refusal::FewSlots);
    }
    Ok(())
}

// 7, for tables of one length: the first period after which A is above R + s, or what must have been made above the most that can have been
pub fn shortage(day: Day) -> Result<(), Refusal>
    requires capacity_len { length day.capacity.now ≡ periods (lent_day day) }
    requires store_len { length day.store.now ≡ periods (lent_day day) }
    requires few { periods (lent_day day) ≤ max_periods }
    ensures { result ≡ checked (shortage (lent_day day.entry)) }
{
    let n = day.periods();
    let opening = u64::from(day.ends.opening);
    // By index, here and in `binding`: of the items that `enumerate` gives over a `zip` it was not found that they are the tables' entries.
    let mut demanded: u64 = 0;
    let mut most: u64 = 0;
    for i in 0..n {
        demanded += u64::from(day.demand[i]);
        let limit = demanded + u64::from(day.store[i]);
        most = (most + u64::from(day.capacity[i])).min(limit.saturating_sub(opening));
        let overfull = limit < opening;
        if overfull || most < checks::net_to(demanded, i + 1 == n, day.ends) {
            return Err(Refusal::Shortage((i + 1) as u16));
        }
    }
    Ok(())
}

// What is asked of the day, here and below, is what earlier tests have found: no type has it before them.
// 8, for tables of one length: every capacity is as the first
fn equal(day: Day) -> Result<(), Refusal>
    requires { Readable (lent_day day) }
    ensures { result ≡ checked (unequal (lent_day day.entry)) }
{
    if day.capacity.iter().any(|c| *c != day.capacity[0]) {
        return Err(Refusal::UnequalCapacities);
    }
    Ok(())
}

// 9, for tables of one length: the first capacity below what remains to be made, T less the larger of 0 and (R before its period − A)
fn binding(day: Day) -> Result<(), Refusal>
    requires { Balanced (lent_day day) }
    ensures { result ≡ checked (binding (lent_day day.entry)) }
{
    let total = checks::total(day);
    let opening = u64::from(day.ends.opening);
    let mut demanded: u64 = 0;
    for i in 0..day.periods() {
        let remaining = total.saturating_sub(demanded.saturating_sub(opening));
        if u64::from(day.capacity[i]) < remaining {
            return Err(Refusal::BindingCapacity((i + 1) as u16));
        }
        demanded += u64::from(day.demand[i]);
    }
    Ok(())
}

// 15, for tables of one length: the first setup cost above 0
fn paid(day: Day) -> Result<(), Refusal>
    requires { Readable (lent_day day) }
    ensures { result ≡ checked (paid_setup (lent_day day.entry)) }
{
    let found = day.setup.iter().position(|setup| *setup > 0);
    checks::unless_found(found).map_err(Refusal::PaidSetup)
}

// 16, for tables of one length: the first store limit below R + Z
fn low_store(day: Day) -> Result<(), Refusal>
    requires { Readable (lent_day day) }
    ensures { result ≡ checked (low_store (lent_day day.entry)) }
{
    let required = checks::required(day);
    let found = day
        .store
        .iter()
        .position(|store| u64::from(*store) < required);
    checks::unless_found(found).map_err(Refusal::LowStore)
}

// The tests that a path alone applies: of each short path one, then 16; of big days 16.
// By match, as in `cells` and `limit`: in specs/ too the paths are a table of five rows.
fn own(kind: PathKind, day: Day) -> Result<(), Refusal>
    requires { Balanced (lent_day day) }
    ensures { result ≡ checked (first ((path_of kind).own (lent_day day.entry))) }
{
    match kind {
        PathKind::Full => Ok(()),
        PathKind::Uncapped => {
            binding(day)?;
            low_store(day)
        }
        PathKind::Equal => {
            equal(day)?;
            low_store(day)
        }
        PathKind::Free => {
            paid(day)?;
            low_store(day)
        }
        PathKind::Big => low_store(day),
    }
}

// The cells that a path needs for n periods in which so much is made; how much counts for the full path alone.
pub fn cells(kind: PathKind, n: usize, total: usize) -> Needed
    requires { (n ≤ max_periods) × (total ≤ max_sum) }
    ensures { NeededBy (path_of kind) n total result }
{
    match kind {
        PathKind::Full => Needed {
            costs: 2 * (total + 1),
            choices: n * (total + 1),
        },
        PathKind::Uncapped => Needed {
            costs: n + 1,
            choices: n + 1,
        },
        PathKind::Equal => Needed {
            costs: 6 * (n + 1),
            choices: 4 * ((n + 1) * (n + 1)),
        },
        PathKind::Free => Needed {
            costs: n,
            choices: 0,
        },
        PathKind::Big => Needed {
            costs: 3 * n,
            choices: 0,
        },
    }
}

// 5, 6, 7, then the path's own, once 1 to 4 and 14 have passed
fn room(kind: PathKind, day: Day, lent: Sizes) -> Result<(), Refusal>
    requires { Balanced (lent_day day) }
    ensures { result ≡ checked (first (path_tests (path_of kind) (lent_day day.entry) lent)) }
{
    let n = day.periods();
    // `as`: between u64 and usize std has no From.
    memory(lent, cells(kind, n, checks::total(day) as usize), n)?;
    shortage(day)?;
    own(kind, day)
}

// The most that R + Z may be in a path.
fn limit(kind: PathKind) -> u64
    ensures { result ≡ (path_of kind).limit }
{
    match kind {
        PathKind::Big => MAX_BIG_TOTAL,
        _ => checks::MAX_TOTAL,
    }
}

// A path's tests in order: 1 to 4, 14, 5 to 7, then its own
pub fn path(kind: PathKind, day: Day, lent: Sizes) -> Result<(), Refusal>
    ensures { result ≡ checked (refusal (path_of kind) (lent_day day.entry) lent) }
{
    checks::day(day, limit(kind))?;
    room(kind, day, lent)
}
