//! For the trials of the paths: made-up tiny days, by the draws of a test load. A tiny day has one to four periods, in which it makes at most 10
//! in all.
#![tactic(auto)]

ghost use Rattle.std.specs.Prelude.{◌≡◌, ◌+◌, ◌%◌};
ghost use Rattle.std.specs.Iterator.{YieldsFirst, item_count};
ghost use Rattle.day.specs.Lent.{lent_day};
ghost use Rattle.test_load.specs.Draws.{next_seed, seed_after, upper};
ghost use Rattle.tiny_days.specs.MadeUp.{capacity_of, store_of, drawn_of, ends_from, stores_from, MadeUp, day_in, days_left};

use day::{Day, Ends};
use std::array;
use test_load::{next_seed, upper};

// Which capacities a made-up day has: any, one throughout, or such as cannot bind.
#[derive(Clone, Copy)]
pub enum Capacities {
    Any,
    Equal,
    Unbound,
}

// The capacity of one period, from the one drawn for it and the one drawn for the day.
fn capacity_of(capacities: Capacities, drawn: u16, common: u16) -> u16
    ensures { result ≡ capacity_of capacities drawn common }
{
    match capacities {
        Capacities::Any => drawn,
        Capacities::Equal => common,
        Capacities::Unbound => 10,
    }
}

// Which store limits a made-up day has: none, low ones, of which many bind, or such as no path refuses.
#[derive(Clone, Copy)]
pub enum Stores {
    Unlimited,
    Low,
    Ample,
}

// The store limit of one period, from the number drawn for it; 65,535 limits nothing, for the reason beside `NO_LIMIT` in crates/dayfile.
fn store_of(stores: Stores, drawn: u16) -> u16
    ensures { result ≡ store_of stores drawn }
{
    match stores {
        Stores::Unlimited => 65535,
        Stores::Low => drawn,
        Stores::Ample => 10,
    }
}

// The draws of a test load, one after the other: a day has draws before and after its periods, so they are no period's alone, as a test load's are.
#[derive(Drop)]
struct Draws {
    seed: u32,
}

impl Draws {
    fn draw(&mut self) -> u16
        ensures drawn { result ≡ upper self.new.seed }
        ensures seed { self.new.seed ≡ next_seed self.old.seed }
    {
        self.seed = next_seed(self.seed);
        upper(self.seed)
    }
}

// One period of a made-up day. Small numbers, so that ties are many. Not `day::Entries`: the store limits are drawn later, after the ends.
#[derive(Clone, Copy)]
struct Drawn {
    demand: u16,
    capacity: u16,
    setup: u32,
    unit: u32,
    holding: u32,
}

#[tactic(auto, unfolding(crate::specs::MadeUp::drawn_of))]
fn draw_period(draws: &mut Draws, capacities: Capacities, common: u16) -> Drawn
    ensures period { result ≡ drawn_of draws.old.seed capacities common }
    ensures seed { draws.new.seed ≡ seed_after draws.old.seed 5 }
{
    let demand = draws.draw();
    let capacity = draws.draw();
    let setup = draws.draw();
    let unit = draws.draw();
    let holding = draws.draw();
    Drawn {
        demand: demand % 3,
        capacity: capacity_of(capacities, capacity % 5, common),
        setup: u32::from(setup % 4),
        unit: u32::from(unit % 3),
        holding: u32::from(holding % 3),
    }
}

// An end of a made-up day, from the number drawn for it.
fn end_of(drawn: u16, most: u16) -> u16
    ensures { result ≡ drawn % (most + 1) }
{
    (u32::from(drawn) % (u32::from(most) + 1)) as u16
}

// The ends of a made-up day, each at most so much.
fn draw_ends(draws: &mut Draws, most: u16) -> Ends
    ensures ends { result ≡ ends_from draws.old.seed most }
    ensures seed { draws.new.seed ≡ seed_after draws.old.seed 2 }
{
    let opening = draws.draw();
    let closing = draws.draw();
    Ends {
        opening: end_of(opening, most),
        closing: end_of(closing, most),
    }
}

// The store limits of a made-up day.
#[tactic(auto, unfolding(crate::specs::MadeUp::stores_from))]
fn draw_stores(draws: &mut Draws, stores: Stores) -> [u16; 4]
    ensures { result ≡ stores_from draws.old.seed stores }
{
    array::from_fn(|_| store_of(stores, draws.draw() % 6))
}

// A made-up day: the first n cells of its tables, and its ends; and the seed for the next one. The ends are drawn after the periods, then
// the store limits, and the next day's seed is the one before these draws: so the same seed gives the same days but for ends and stores.
// Six arrays with n beside: a day is lent as six slices of one length, and the lengths of six vectors would be six facts.
// Not `tables::Tables` with a length as parameter: those are lent to be filled, and hold no day of their own.
#[derive(Clone, Copy)]
pub struct Tiny {
    pub seed: u32,
    pub n: usize,
    pub demand: [u16; 4],
    pub capacity: [u16; 4],
    pub setup: [u32; 4],
    pub unit: [u32; 4],
    pub holding: [u32; 4],
    pub store: [u16; 4],
    pub ends: Ends,
}

impl Tiny {
    // The day.
    pub fn day(&self) -> Day<'_>
        ensures { lent_day result ≡ day_in self.now }
    {
        // n is at most 4, as `MadeUp` says: `min` says it where no clause does.
        let n = self.n.min(4);
        Day::new(
            &self.demand[..n],
            &self.capacity[..n],
            &self.setup[..n],
            &self.unit[..n],
            &self.holding[..n],
            &self.store[..n],
            self.ends,
        )
    }
}

// What made-up days are like; each of their ends is at most `most`.
#[derive(Clone, Copy)]
pub struct Kind {
    pub capacities: Capacities,
    pub stores: Stores,
    pub most: u16,
}

impl Kind {
    // The day of a seed. Its demand is at most 8, so with ends of at most 2 it is tiny.
    pub fn make_up(self, seed: u32) -> Tiny
        ensures { MadeUp seed self result }
    {
        let mut draws = Draws { seed };
        let n = 1 + usize::from(draws.draw() % 4);
        let common = draws.draw() % 5;
        // One by one, here and in the tables below: what `array::from_fn` or an array's `map` gives is known call by call alone, and over five tables of
        // four the proof did not close.
        let a = draw_period(&mut draws, self.capacities, common);
        let b = draw_period(&mut draws, self.capacities, common);
        let c = draw_period(&mut draws, self.capacities, common);
        let d = draw_period(&mut draws, self.capacities, common);
        let seed = draws.seed;
        let ends = draw_ends(&mut draws, self.most);
        let store = draw_stores(&mut draws, self.stores);
        Tiny {
            seed,
            n,
            demand: [a.demand, b.demand, c.demand, d.demand],
            capacity: [a.capacity, b.capacity, c.capacity, d.capacity],
            setup: [a.setup, b.setup, c.setup, d.setup],
            unit: [a.unit, b.unit, c.unit, d.unit],
            holding: [a.holding, b.holding, c.holding, d.holding],
            store,
            ends,
        }
    }
}

// So many made-up days, each from the seed that the one before it leaves.
#[derive(Drop)]
pub struct Days {
    pub kind: Kind,
    pub seed: u32,
    pub left: u32,
}

impl Iterator for Days {
    type Item = Tiny;

    ghost next_gives = { YieldsFirst days_left };

    ghost remaining = { item_count days_left };

    fn next(&mut self) -> Option<Tiny> {
        if self.left == 0 {
            return None;
        }
        let day = self.kind.make_up(self.seed);
        self.seed = day.seed;
        self.left -= 1;
        Some(day)
    }
}
