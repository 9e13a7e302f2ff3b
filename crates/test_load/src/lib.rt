//! A test load: a made-up day that anyone can draw again from its seed, in six lent tables. What it does is `Loading` in specs/.
#![tactic(auto)]

ghost use Rattle.std.specs.Prelude.{◌≡◌};
ghost use Rattle.day.specs.Day.{tables_of};
ghost use Rattle.day.specs.Refusals.{checked};
ghost use Rattle.day.specs.Lent.{tables_lent, tables_after};
ghost use Rattle.tables.specs.Filled.{Cells};
ghost use Rattle.test_load.specs.Draws.{next_seed, upper};
ghost use Rattle.test_load.specs.Load.{bad_load, with_load, Loading};
ghost use Rattle.test_load.specs.Periods.{drawn_from};

use day::{Entries, Refusal};

// One draw: what it sets the seed to.
pub fn next_seed(seed: u32) -> u32
    ensures { result ≡ next_seed seed }
{
    seed.wrapping_mul(1664525).wrapping_add(1013904223)
}

// What a draw takes of the seed that it has set: the upper 16 bits.
pub fn upper(seed: u32) -> u16
    ensures { result ≡ upper seed }
{
    (seed >> 16) as u16
}

// One period of a test load, and the seed after its draws.
#[derive(Clone, Copy)]
struct Drawn {
    entries: Entries,
    seed: u32,
}

// The five draws of a period, from the seed before them.
#[tactic(auto, unfolding(crate::specs::Periods::drawn_from))]
fn draw(seed: u32) -> Drawn
    ensures { result ≡ drawn_from seed }
{
    let a = next_seed(seed);
    let b = next_seed(a);
    let c = next_seed(b);
    let d = next_seed(c);
    let e = next_seed(d);
    Drawn {
        entries: Entries {
            demand: upper(a) % 41,
            capacity: upper(b) % 61,
            setup: u32::from(upper(c) % 30001),
            unit: u32::from(upper(d) % 1201),
            holding: u32::from(upper(e) % 21),
            // no limit: a number, for the reason beside `dayfile::layout::NO_LIMIT`
            store: u16::MAX,
        },
        seed: e,
    }
}

// The first n cells of each table take the numbers drawn for n periods; later cells stay. The tables come one by one, for the reason beside
// `tables::put`.
fn draw_periods(
    seed: u32,
    n: usize,
    demand: &mut [u16],
    capacity: &mut [u16],
    setup: &mut [u32],
    unit: &mut [u32],
    holding: &mut [u32],
    store: &mut [u16],
)
    requires { Cells n (tables_of demand.old capacity.old setup.old unit.old holding.old store.old) }
    ensures { tables_after demand capacity setup unit holding store
        ≡ with_load seed n (tables_lent demand capacity setup unit holding store) }
{
    let mut at = seed;
    // By index: of cells that `iter_mut` lends to a `zip` nothing is known afterwards.
    for k in 0..n {
        let Drawn {
            entries,
            seed: last,
        } = draw(at);
        tables::put(k, entries, demand, capacity, setup, unit, holding, store);
        at = last;
    }
}

// 1, then 6; `cells` is how many the shortest table has.
fn tests(n: usize, cells: usize) -> Result<(), Refusal>
    ensures { result ≡ checked (bad_load n cells) }
{
    checks::count(n)?;
    if cells < n {
        return Err(Refusal::FewSlots);
    }
    Ok(())
}

// Fills the tables with the test load of n periods that the seed gives. The tables come one by one, as those of `draw_periods`.
pub fn fill(
    seed: u32,
    n: usize,
    demand: &mut [u16],
    capacity: &mut [u16],
    setup: &mut [u32],
    unit: &mut [u32],
    holding: &mut [u32],
    store: &mut [u16],
) -> Result<(), Refusal>
    ensures { Loading seed n (tables_lent demand capacity setup unit holding store) result (tables_after demand capacity setup unit holding store) }
{
    let cells = tables::shortest(
        demand.len(),
        capacity.len(),
        setup.len(),
        unit.len(),
        holding.len(),
        store.len(),
    );
    tests(n, cells)?;
    draw_periods(seed, n, demand, capacity, setup, unit, holding, store);
    Ok(())
}
