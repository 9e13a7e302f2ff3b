//! The types that every call answers with. What they mean is in specs/.
#![tactic(auto)]

mod lent;

ghost use Rattle.std.specs.Prelude.{◌≡◌};
ghost use Rattle.day.specs.Day.{periods, entries_at, with_demand, with_setup, HasPeriod};
ghost use Rattle.day.specs.Lent.{lent_day, day_before};
ghost use Rattle.day.specs.Refusals.{number_of, period_of};

pub use lent::Day;

// Why a call is refused, with the period that it names, where it names one.
// `number_of` and `period_of` give its number and period (docs/station.md).
#[derive(Clone, Copy)]
pub enum Refusal {
    PeriodCount,
    TableLength,
    AboveLimit(u16),
    TotalDemand,
    ShortArea,
    FewSlots,
    Shortage(u16),
    UnequalCapacities,
    BindingCapacity(u16),
    UnknownKind,
    TruncatedFile,
    WrongEnd,
    NoSuchPeriod,
    SurplusInventory,
    PaidSetup(u16),
    LowStore(u16),
    OpeningInventory,
    ReversedRange(u16),
    NoTrials,
    WrongStamp,
}

// Numbers, and 0 where no period is named, since C and the operators read them so.
impl Refusal {
    pub fn number(self) -> u8
        ensures { result ≡ number_of self }
    {
        match self {
            Refusal::PeriodCount => 1,
            Refusal::TableLength => 2,
            Refusal::AboveLimit(_) => 3,
            Refusal::TotalDemand => 4,
            Refusal::ShortArea => 5,
            Refusal::FewSlots => 6,
            Refusal::Shortage(_) => 7,
            Refusal::UnequalCapacities => 8,
            Refusal::BindingCapacity(_) => 9,
            Refusal::UnknownKind => 10,
            Refusal::TruncatedFile => 11,
            Refusal::WrongEnd => 12,
            Refusal::NoSuchPeriod => 13,
            Refusal::SurplusInventory => 14,
            Refusal::PaidSetup(_) => 15,
            Refusal::LowStore(_) => 16,
            Refusal::OpeningInventory => 17,
            Refusal::ReversedRange(_) => 18,
            Refusal::NoTrials => 19,
            Refusal::WrongStamp => 20,
        }
    }

    pub fn period(self) -> u16
        ensures { result ≡ period_of self }
    {
        match self {
            Refusal::AboveLimit(i)
            | Refusal::Shortage(i)
            | Refusal::BindingCapacity(i)
            | Refusal::PaidSetup(i)
            | Refusal::LowStore(i)
            | Refusal::ReversedRange(i) => i,
            _ => 0,
        }
    }
}

// The paths; `path_of` gives what each needs and tests.
#[derive(Clone, Copy)]
pub enum PathKind {
    Full,
    Uncapped,
    Equal,
    Free,
    Big,
}

// The inventory at both ends of a day (operators say: opening charge A, closing charge Z).
#[derive(Clone, Copy)]
pub struct Ends {
    pub opening: u16,
    pub closing: u16,
}

// The entries of one period.
#[derive(Clone, Copy)]
pub struct Entries {
    pub demand: u16,
    pub capacity: u16,
    pub setup: u32,
    pub unit: u32,
    pub holding: u32,
    pub store: u16,
}

impl<'a> Day<'a> {
    pub fn new(
        demand: &'a [u16],
        capacity: &'a [u16],
        setup: &'a [u32],
        unit: &'a [u32],
        holding: &'a [u32],
        store: &'a [u16],
        ends: Ends,
    ) -> Day<'a>
        ensures { lent_day result ≡ day_before demand capacity setup unit holding store ends }
    {
        Day {
            demand,
            capacity,
            setup,
            unit,
            holding,
            store,
            ends,
        }
    }

    // The day with another table of needs. Field by field, as below: of a struct with a ghost field `..self` is not taken.
    pub fn with_demand(self, needs: &'a [u16]) -> Day<'a>
        ensures { lent_day result ≡ with_demand needs.entry.now (lent_day self.entry) }
    {
        Day::new(
            needs,
            self.capacity,
            self.setup,
            self.unit,
            self.holding,
            self.store,
            self.ends,
        )
    }

    // The day with other start costs.
    pub fn with_setup(self, setup: &'a [u32]) -> Day<'a>
        ensures { lent_day result ≡ with_setup setup.entry.now (lent_day self.entry) }
    {
        Day::new(
            self.demand,
            self.capacity,
            setup,
            self.unit,
            self.holding,
            self.store,
            self.ends,
        )
    }

    // n
    pub fn periods(self) -> usize
        ensures { result ≡ periods (lent_day self.entry) }
    {
        self.demand.len()
    }

    // The entries of the period at index i, of tables of one length.
    pub fn entries(self, i: usize) -> Entries
        requires { HasPeriod (lent_day self) i }
        ensures { result ≡ entries_at (lent_day self.entry) i }
    {
        Entries {
            demand: self.demand[i],
            capacity: self.capacity[i],
            setup: self.setup[i],
            unit: self.unit[i],
            holding: self.holding[i],
            store: self.store[i],
        }
    }
}

// How many cells a caller lends: of the cost area, of the choice area, answer slots.
#[derive(Clone, Copy)]
pub struct Sizes {
    pub costs: usize,
    pub choices: usize,
    pub slots: usize,
}

// The station and the day that a file is for, in days since 1 January 2000 (operators say: the pair).
#[derive(Clone, Copy, PartialEq, Eq)]
pub struct Stamp {
    pub station: u16,
    pub date: u16,
}

// A plan's cost and its setups (operators say: starts).
#[derive(Clone, Copy, PartialEq, Eq)]
pub struct Totals {
    pub cost: u64,
    pub setups: u64,
}

// How many periods of a plan are full-load periods, and how many are part-loaded.
#[derive(Clone, Copy)]
pub struct Loads {
    pub full: u64,
    pub part: u64,
}

// The least cost of a day with its lowest needs, and with its highest.
#[derive(Clone, Copy)]
pub struct Bounds {
    pub lowest: u64,
    pub highest: u64,
}

// How many trials a big day took, and how far its cost lies above the least with all starts free.
#[derive(Clone, Copy)]
pub struct Trials {
    pub used: u64,
    pub gap: u64,
}
