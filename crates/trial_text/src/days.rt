//! Days, as lines give them.
ghost use Rattle.std.specs.Prelude.{◌≡◌, ◌≤◌, IfOk, replicate};
ghost use Rattle.day.specs.Day.{day_of};
ghost use Rattle.day.specs.Lent.{lent_day};

use crate::cells::MARK;
use crate::line::{Amount, Line, amounts, amounts_for_all, fill, for_all, numbers, text_of};
use arrayvec::ArrayVec;
use day::{Day, Ends};
use std::alloc::{AllocError, Global};

// A day's tables, of its own, in a heap's vectors. Six side by side, since a day is lent as six slices.
#[derive(Drop)]
pub struct Tables {
    pub demand: Vec<u16>,
    pub capacity: Vec<u16>,
    pub setup: Vec<u32>,
    pub unit: Vec<u32>,
    pub holding: Vec<u32>,
    pub store: Vec<u16>,
}

impl Tables {
    // Those of a line: five in its fields 1 to 5, of the last three of which one number stands for all periods; and its store limits, none of
    // which limits where they are left out: 65,535, for the reason beside `NO_LIMIT` in crates/dayfile.
    pub fn of(alloc: Global, line: Line<'_>) -> Result<Tables, AllocError> {
        let demand = numbers(alloc, line.field(1))?;
        let n = demand.len();
        let mut store = for_all(alloc, text_of(line.stores), n)?;
        if store.is_empty() {
            store.resize(n, u16::MAX)?;
        }
        Ok(Tables {
            demand,
            capacity: numbers(alloc, line.field(2))?,
            setup: for_all(alloc, line.field(3), n)?,
            unit: for_all(alloc, line.field(4), n)?,
            holding: for_all(alloc, line.field(5), n)?,
            store,
        })
    }

    // Tables of n cells each, every one of which holds the mark.
    pub fn marked(alloc: Global, n: usize) -> Result<Tables, AllocError>
        ensures demand { IfOk result (λ tables. tables.demand.items ≡ replicate n 119) }
        ensures capacity { IfOk result (λ tables. tables.capacity.items ≡ replicate n 119) }
        ensures setup { IfOk result (λ tables. tables.setup.items ≡ replicate n 119) }
        ensures unit { IfOk result (λ tables. tables.unit.items ≡ replicate n 119) }
        ensures holding { IfOk result (λ tables. tables.holding.items ≡ replicate n 119) }
        ensures store { IfOk result (λ tables. tables.store.items ≡ replicate n 119) }
    {
        Ok(Tables {
            demand: vec![in alloc; MARK.into(); n]?,
            capacity: vec![in alloc; MARK.into(); n]?,
            setup: vec![in alloc; MARK.into(); n]?,
            unit: vec![in alloc; MARK.into(); n]?,
            holding: vec![in alloc; MARK.into(); n]?,
            store: vec![in alloc; MARK.into(); n]?,
        })
    }

    // The day of these tables.
    pub fn day(&self, ends: Ends) -> Day<'_>
        ensures { let t = self.now in lent_day result ≡ day_of t.demand.items t.capacity.items t.setup.items t.unit.items t.holding.items t.store.items ends }
    {
        Day::new(
            &self.demand,
            &self.capacity,
            &self.setup,
            &self.unit,
            &self.holding,
            &self.store,
            ends,
        )
    }
}

// A day's tables as the trials have them, without a heap: with room for so many cells each.
#[derive(Drop)]
pub struct FixedTables<const CELLS: usize> {
    pub demand: ArrayVec<u16, CELLS>,
    pub capacity: ArrayVec<u16, CELLS>,
    pub setup: ArrayVec<u32, CELLS>,
    pub unit: ArrayVec<u32, CELLS>,
    pub holding: ArrayVec<u32, CELLS>,
    pub store: ArrayVec<u16, CELLS>,
}

// A table of n cells, as far as there is room, every one of which holds the mark.
fn marked<N: Amount + From<u8>, const CELLS: usize>(n: usize) -> ArrayVec<N, CELLS> {
    let mut cells = ArrayVec::new();
    fill(&mut cells, N::from(MARK), n);
    cells
}

impl<const CELLS: usize> FixedTables<CELLS> {
    // Those of a line, laid out as in `Tables`.
    pub fn of(line: Line<'_>) -> FixedTables<CELLS> {
        let demand: ArrayVec<u16, CELLS> = amounts(line.field_bytes(1));
        let n = demand.len();
        let mut store = amounts_for_all(line.stores, n);
        if store.is_empty() {
            fill(&mut store, u16::MAX, n);
        }
        FixedTables {
            demand,
            capacity: amounts(line.field_bytes(2)),
            setup: amounts_for_all(line.field_bytes(3), n),
            unit: amounts_for_all(line.field_bytes(4), n),
            holding: amounts_for_all(line.field_bytes(5), n),
            store,
        }
    }

    // Tables of n cells each.
    pub fn marked(n: usize) -> FixedTables<CELLS> {
        FixedTables {
            demand: marked(n),
            capacity: marked(n),
            setup: marked(n),
            unit: marked(n),
            holding: marked(n),
            store: marked(n),
        }
    }

    // The day of these tables.
    pub fn day(&self, ends: Ends) -> Day<'_> {
        Day::new(
            self.demand.as_slice(),
            self.capacity.as_slice(),
            self.setup.as_slice(),
            self.unit.as_slice(),
            self.holding.as_slice(),
            self.store.as_slice(),
            ends,
        )
    }
}

// The ends of a line's day: two numbers, both 0 where they are left out.
pub fn ends_of(line: Line<'_>) -> Ends {
    let numbers: ArrayVec<u16, 2> = amounts(line.ends);
    let mut ends = numbers.as_slice().iter();
    Ends {
        opening: ends.next().map_or(0, |end| *end),
        closing: ends.next().map_or(0, |end| *end),
    }
}

// The most that a sum of needs is taken as.
const MANY: usize = 4097;

// What a day makes in all; 0 where it begins with more than it needs. R + Z is taken as 4,097 where it is more than 4,096.
pub fn total(day: Day<'_>) -> usize
    ensures { result ≤ 4097 }
{
    (summed(day.demand) + usize::from(day.ends.closing))
        .min(MANY)
        .saturating_sub(usize::from(day.ends.opening))
}

// What a table needs in all; 4,097 where it is more than 4,096.
pub fn summed(demand: &[u16]) -> usize
    ensures { result ≤ 4097 }
{
    let sum = demand
        .iter()
        .fold(0usize, |sum, need| sum.saturating_add(usize::from(*need)));
    sum.min(MANY)
}
