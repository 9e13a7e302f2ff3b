//! The library's calls as a C program has them: the answer as one code, its numbers in an out-array (include/yakkurem.h).
//! Tables and ends come one by one, and each kind of call has a name of its own, since C declares them so.
#![tactic(auto)]

ghost use Rattle.std.specs.Prelude.{◌≡◌};
ghost use Rattle.day.specs.Paths.{full, uncapped, free};
ghost use Rattle.day.specs.Day.{ends_with};
ghost use Rattle.day.specs.File.{stamp_with};
ghost use Rattle.day.specs.Lent.{day_before, memory_before, memory_after, cells_before, cells_after, areas_before, areas_after};
ghost use Rattle.weigher.specs.Answers.{Weighs, Compares, weighed_figures, compared_figures};
ghost use Rattle.play.specs.Answers.{Plays, play_figures};
ghost use Rattle.price.specs.Price.{price_of};
ghost use Rattle.station.specs.Shows.{Shows, PathShows, EqualShows, BoundsShows, BigShows, ReadShows, LookupShows, WriteShows, LoadShows};

use day::{Day, Ends, Stamp};

// The plan of any day, by recursion (5); the answer is its cost and setups.
#[unsafe(no_mangle)]
pub extern "C" fn yakkurem_full(
    demand: &[u16],
    capacity: &[u16],
    setup: &[u32],
    unit: &[u32],
    holding: &[u32],
    store: &[u16],
    opening: u16,
    closing: u16,
    costs: &mut [u64],
    choices: &mut [u16],
    slots: &mut [u16],
    answer: &mut [u64; 2],
) -> u64
    ensures { PathShows full demand capacity setup unit holding store (ends_with opening closing)
        (memory_before costs choices slots) (memory_after costs choices slots) answer result }
{
    let ends = Ends { opening, closing };
    let day = Day::new(demand, capacity, setup, unit, holding, store, ends);
    let a = full::plan(day, costs, choices, slots);
    codes::shown(a, answer)
}

// The plan of a day whose capacities and stores can't bind; the answer is its cost and setups.
#[unsafe(no_mangle)]
pub extern "C" fn yakkurem_uncapped(
    demand: &[u16],
    capacity: &[u16],
    setup: &[u32],
    unit: &[u32],
    holding: &[u32],
    store: &[u16],
    opening: u16,
    closing: u16,
    costs: &mut [u64],
    choices: &mut [u16],
    slots: &mut [u16],
    answer: &mut [u64; 2],
) -> u64
    ensures { PathShows uncapped demand capacity setup unit holding store (ends_with opening closing)
        (memory_before costs choices slots) (memory_after costs choices slots) answer result }
{
    let ends = Ends { opening, closing };
    let day = Day::new(demand, capacity, setup, unit, holding, store, ends);
    let a = uncapped::plan(day, costs, choices, slots);
    codes::shown(a, answer)
}

// The plan of a day with one capacity throughout whose stores can't bind; the answer is its cost, setups, full-load and part-loaded periods.
#[unsafe(no_mangle)]
pub extern "C" fn yakkurem_equal(
    demand: &[u16],
    capacity: &[u16],
    setup: &[u32],
    unit: &[u32],
    holding: &[u32],
    store: &[u16],
    opening: u16,
    closing: u16,
    costs: &mut [u64],
    choices: &mut [u16],
    slots: &mut [u16],
    answer: &mut [u64; 4],
) -> u64
    ensures { EqualShows demand capacity setup unit holding store (ends_with opening closing)
        (memory_before costs choices slots) (memory_after costs choices slots) answer result }
{
    let ends = Ends { opening, closing };
    let day = Day::new(demand, capacity, setup, unit, holding, store, ends);
    let a = equal::plan(day, costs, choices, slots);
    codes::shown(a, answer)
}

// The plan of a day without setup cost whose stores can't bind; the answer is its cost and setups. No choice area is lent.
#[unsafe(no_mangle)]
pub extern "C" fn yakkurem_free(
    demand: &[u16],
    capacity: &[u16],
    setup: &[u32],
    unit: &[u32],
    holding: &[u32],
    store: &[u16],
    opening: u16,
    closing: u16,
    costs: &mut [u64],
    slots: &mut [u16],
    answer: &mut [u64; 2],
) -> u64
    ensures { PathShows free demand capacity setup unit holding store (ends_with opening closing)
        (cells_before costs slots) (cells_after costs slots) answer result }
{
    let ends = Ends { opening, closing };
    let day = Day::new(demand, capacity, setup, unit, holding, store, ends);
    let a = free::plan(day, costs, slots);
    codes::shown(a, answer)
}

// Needs known as ranges, the demands being the highest; the answer is the least cost of the day with the lowest, and with the highest.
#[unsafe(no_mangle)]
pub extern "C" fn yakkurem_bounds(
    lowest: &[u16],
    demand: &[u16],
    capacity: &[u16],
    setup: &[u32],
    unit: &[u32],
    holding: &[u32],
    store: &[u16],
    opening: u16,
    closing: u16,
    costs: &mut [u64],
    choices: &mut [u16],
    answer: &mut [u64; 2],
) -> u64
    ensures { BoundsShows lowest demand capacity setup unit holding store (ends_with opening closing)
        (areas_before costs choices) (areas_after costs choices) answer result }
{
    let ends = Ends { opening, closing };
    let day = Day::new(demand, capacity, setup, unit, holding, store, ends);
    let a = bounds::least_costs(lowest, day, costs, choices);
    codes::shown(a, answer)
}

// The best plan of a big day in so many trials; the answer is its cost, setups, the trials used, and the gap. No choice area is lent.
#[unsafe(no_mangle)]
pub extern "C" fn yakkurem_big(
    demand: &[u16],
    capacity: &[u16],
    setup: &[u32],
    unit: &[u32],
    holding: &[u32],
    store: &[u16],
    opening: u16,
    closing: u16,
    trials: usize,
    costs: &mut [u64],
    slots: &mut [u16],
    answer: &mut [u64; 4],
) -> u64
    ensures { BigShows trials demand capacity setup unit holding store (ends_with opening closing)
        (cells_before costs slots) (cells_after costs slots) answer result }
{
    let ends = Ends { opening, closing };
    let day = Day::new(demand, capacity, setup, unit, holding, store, ends);
    let a = big::plan(day, costs, slots, trials);
    codes::shown(a, answer)
}

// Weighs a plan; the answer is its cost and setups.
#[unsafe(no_mangle)]
pub extern "C" fn yakkurem_weigh(
    demand: &[u16],
    capacity: &[u16],
    setup: &[u32],
    unit: &[u32],
    holding: &[u32],
    store: &[u16],
    opening: u16,
    closing: u16,
    plan: &[u16],
    answer: &mut [u64; 2],
) -> u64
    ensures { Shows (Weighs (day_before demand capacity setup unit holding store (ends_with opening closing)) plan.now)
        weighed_figures answer result }
{
    let ends = Ends { opening, closing };
    let day = Day::new(demand, capacity, setup, unit, holding, store, ends);
    codes::shown(weigher::weigh(day, plan), answer)
}

// Weighs two plans; the answer is the first one's cost less the second's.
#[unsafe(no_mangle)]
pub extern "C" fn yakkurem_compare(
    demand: &[u16],
    capacity: &[u16],
    setup: &[u32],
    unit: &[u32],
    holding: &[u32],
    store: &[u16],
    opening: u16,
    closing: u16,
    first: &[u16],
    second: &[u16],
    difference: &mut [i64; 1],
) -> u64
    ensures { Shows (Compares (day_before demand capacity setup unit holding store (ends_with opening closing)) first.now second.now)
        compared_figures difference result }
{
    let ends = Ends { opening, closing };
    let day = Day::new(demand, capacity, setup, unit, holding, store, ends);
    codes::shown(weigher::compare(day, first, second), difference)
}

// Plays a plan through against actual needs; the answer is what was made, delivered, missed and spilled, and what is left.
#[unsafe(no_mangle)]
pub extern "C" fn yakkurem_play(
    demand: &[u16],
    capacity: &[u16],
    setup: &[u32],
    unit: &[u32],
    holding: &[u32],
    store: &[u16],
    opening: u16,
    closing: u16,
    plan: &[u16],
    actual: &[u16],
    answer: &mut [u64; 5],
) -> u64
    ensures { Shows (Plays actual.now (day_before demand capacity setup unit holding store (ends_with opening closing)) plan.now)
        play_figures answer result }
{
    let ends = Ends { opening, closing };
    let day = Day::new(demand, capacity, setup, unit, holding, store, ends);
    codes::shown(play::play(day, plan, actual), answer)
}

// Fills tables from a day file; the answer is the count of its periods, and its ends.
#[unsafe(no_mangle)]
pub extern "C" fn yakkurem_read(
    file: &[u8],
    expected: &[u16],
    demand: &mut [u16],
    capacity: &mut [u16],
    setup: &mut [u32],
    unit: &mut [u32],
    holding: &mut [u32],
    store: &mut [u16],
    day: &mut [u64; 3],
) -> u64
    ensures { ReadShows file expected demand capacity setup unit holding store day result }
{
    let stamp = codes::expected(expected);
    let a = dayfile_reader::read(file, demand, capacity, setup, unit, holding, store, stamp);
    codes::shown(a, day)
}

// Where the body of a numbered period record lies in the file; the answer is its first byte, counted from 0, and its length.
// No byte is copied: the body is that part of the caller's own file.
#[unsafe(no_mangle)]
pub extern "C" fn yakkurem_lookup(file: &[u8], period: usize, part: &mut [u64; 2]) -> u64
    ensures { LookupShows file period part result }
{
    codes::shown(dayfile::lookup::place(file, period), part)
}

// Writes the day file at the front of the lent bytes; the answer is how many they are.
#[unsafe(no_mangle)]
pub extern "C" fn yakkurem_write(
    demand: &[u16],
    capacity: &[u16],
    setup: &[u32],
    unit: &[u32],
    holding: &[u32],
    store: &[u16],
    opening: u16,
    closing: u16,
    station: u16,
    date: u16,
    out: &mut [u8],
    count: &mut [u64; 1],
) -> u64
    ensures { WriteShows (stamp_with station date) demand capacity setup unit holding store (ends_with opening closing) out count result }
{
    let ends = Ends { opening, closing };
    let day = Day::new(demand, capacity, setup, unit, holding, store, ends);
    let stamp = Stamp { station, date };
    codes::shown(dayfile_writer::write(day, out, stamp), count)
}

// Fills tables with the test load of a seed. There is no out-array: the code is the whole answer.
#[unsafe(no_mangle)]
pub extern "C" fn yakkurem_test_load(
    seed: u32,
    n: usize,
    demand: &mut [u16],
    capacity: &mut [u16],
    setup: &mut [u32],
    unit: &mut [u32],
    holding: &mut [u32],
    store: &mut [u16],
) -> u64
    ensures { LoadShows seed n demand capacity setup unit holding store result }
{
    let a = test_load::fill(seed, n, demand, capacity, setup, unit, holding, store);
    codes::checked(a)
}

// What the depot charges for a cost in microlitres, in cents. Every cost has a price, so this is no code.
#[unsafe(no_mangle)]
pub extern "C" fn yakkurem_price(cost: u64) -> u64
    ensures { result ≡ price_of cost }
{
    price::charge(cost)
}
