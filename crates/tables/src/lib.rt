//! Six lent tables that a call fills from the front, period by period: the reader's, and those of a test load.
#![tactic(auto)]

ghost use Rattle.std.specs.Prelude.{◌≡◌, ◌+◌, ◌≤◌, min};
ghost use Rattle.day.specs.Day.{tables_of, max_periods};
ghost use Rattle.day.specs.Lent.{lent_day, tables_lent, tables_after};
ghost use Rattle.tables.specs.Filled.{Cells, stored, first_of};
ghost use Rattle.tables.specs.Longest.{blank, held};

use day::{Day, Ends, Entries};

// One cell of each table takes a period's number. The tables come one by one: of a struct of `&mut` slices each call would have to say, field by
// field, that it hands the same references back.
pub fn put(
    k: usize,
    p: Entries,
    demand: &mut [u16],
    capacity: &mut [u16],
    setup: &mut [u32],
    unit: &mut [u32],
    holding: &mut [u32],
    store: &mut [u16],
)
    requires { Cells (k + 1) (tables_of demand.old capacity.old setup.old unit.old holding.old store.old) }
    ensures { tables_after demand capacity setup unit holding store ≡ stored k p (tables_lent demand capacity setup unit holding store) }
{
    demand[k] = p.demand;
    capacity[k] = p.capacity;
    setup[k] = p.setup;
    unit[k] = p.unit;
    holding[k] = p.holding;
    store[k] = p.store;
}

// How many cells each table has at least; the lengths come one by one, as the tables do.
pub fn shortest(
    demand: usize,
    capacity: usize,
    setup: usize,
    unit: usize,
    holding: usize,
    store: usize,
) -> usize
    ensures { result ≡ min demand (min capacity (min setup (min unit (min holding store)))) }
{
    demand.min(capacity.min(setup.min(unit.min(holding.min(store)))))
}

// Tables for the longest day, to lend where there is no heap.
#[derive(Drop)]
pub struct Tables {
    pub demand: [u16; 96],
    pub capacity: [u16; 96],
    pub setup: [u32; 96],
    pub unit: [u32; 96],
    pub holding: [u32; 96],
    pub store: [u16; 96],
}

impl Tables {
    pub fn new() -> Tables
        ensures { result ≡ blank }
    {
        Tables {
            demand: [0; 96],
            capacity: [0; 96],
            setup: [0; 96],
            unit: [0; 96],
            holding: [0; 96],
            store: [0; 96],
        }
    }

    // Their first n cells as a day, with its ends.
    pub fn day(&self, n: usize, ends: Ends) -> Day<'_>
        requires { n ≤ max_periods }
        ensures { lent_day result ≡ first_of n (held self.now) ends }
    {
        Day::new(
            &self.demand[..n],
            &self.capacity[..n],
            &self.setup[..n],
            &self.unit[..n],
            &self.holding[..n],
            &self.store[..n],
            ends,
        )
    }
}
