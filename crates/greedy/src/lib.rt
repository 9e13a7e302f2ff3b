//! The greedy rule of the free path: the needs in turn, each in batches from the period that is best for it.
//! A batch ends the need or fills a period, so there are at most twice as many batches as periods, each found in one pass.
#![tactic(auto)]

ghost use Rattle.std.specs.Prelude.{◌≡◌, ◌≤◌, length};
ghost use Rattle.day.specs.Sums.{at};
ghost use Rattle.day.specs.Day.{max_periods};
ghost use Rattle.theory.specs.Greedy.{Sources, serve, greedy_to};
ghost use Rattle.greedy.specs.Keys.{Keyed};
ghost use Rattle.greedy.specs.Search.{Covers, Told};

// What a unit made in a period costs: to make it, and to hold it from then on. The cells past the periods keep their contents.
pub fn keys(unit: &[u32], holding: &[u32], cells: &mut [u64])
    requires { (length unit.now ≤ max_periods) × (length unit.now ≤ length holding.now) × (length unit.now ≤ length cells.old) }
    ensures { Keyed unit.now holding.now cells.old cells.new }
{
    let mut held: u64 = 0;
    // By index: of cells that `iter_mut` lends to `rev` nothing is known afterwards.
    for k in (0..unit.len()).rev() {
        held += u64::from(holding[k]);
        cells[k] = u64::from(unit[k]) + held;
    }
}

// What the rule serves from: of each period its key, and its capacity. Two slices: keys stand in lent cells, capacities in a table elsewhere.
#[derive(Clone, Copy)]
pub struct Offers<'a> {
    pub keys: &'a [u64],
    pub capacity: &'a [u16],
}

// The best of the first d periods: it has capacity left and the least key, of equal keys the earliest.
// `d` goes beside whole tables: what is served is told of all slots, not of a front. So it is no field of `Offers`, and `Covers` stands in each clause.
fn source(from: Offers, slots: &[u16], d: usize) -> Option<usize>
    requires { Covers d from.keys.now from.capacity.now slots.now }
    ensures { Sources (at from.entry.keys.now) (at from.entry.capacity.now) (at slots.now) d result }
{
    (0..d)
        .filter(|&k| slots[k] < from.capacity[k])
        .min_by_key(|&k| from.keys[k])
}

// The need of one period, from the first d; `None` where they have no capacity for all of it.
fn serve(from: Offers, slots: &mut [u16], d: usize, need: u16) -> Option<()>
    requires { Covers d from.keys.now from.capacity.now slots.old }
    ensures { Told result (serve (at from.entry.keys.now) (at from.entry.capacity.now) d need slots.old) slots.new }
{
    let mut left = need;
    // A loop that counts no index: only the batches, as they are made, say how many there are.
    while 0 < left {
        let k = source(from, slots, d)?;
        let batch = left.min(from.capacity[k] - slots[k]);
        slots[k] += batch;
        left -= batch;
    }
    Some(())
}

// Every need in turn, on top of what the slots hold; `None` where capacities do not suffice.
pub fn serve_all(need: &[u16], from: Offers, slots: &mut [u16]) -> Option<()>
    requires { Covers (length need.now) from.keys.now from.capacity.now slots.old }
    ensures { Told result
        (greedy_to (at from.entry.keys.now) (at from.entry.capacity.now) (at need.now) (length need.now) slots.old)
        slots.new }
{
    for (k, &owed) in need.iter().enumerate() {
        serve(from, slots, k + 1, owed)?;
    }
    Some(())
}
