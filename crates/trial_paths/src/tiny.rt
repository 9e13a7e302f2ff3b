//! Made-up tiny days: the four paths beside the plain search.
ghost use Rattle.std.specs.Prelude.{◌<◌};

use crate::paths;
use crate::paths::Path;
use day::{Day, Refusal};
use plain::Best;
use std::io;
use tiny_days::{Capacities, Days, Kind, Stores};
use trial_text::cells::{LentMemory, MARK};
use trial_text::counts::Counts;
use trial_text::line::Line;
use trial_text::show::text;

// What is counted, of days and of the calls on them.
#[derive(Clone, Copy)]
enum Seen {
    // Days with a plan.
    Plans = 0,
    // Days on which the full, the uncapped and the equal path agreed with the search.
    FullAgrees = 1,
    UncappedAgrees = 2,
    EqualAgrees = 3,
    // Calls that refused the day's capacities (8 or 9).
    Capacities = 4,
    // Calls that left lent cells as they must.
    Kept = 5,
    // Calls that refused the day's opening charge (14).
    Opening = 6,
    // Days on which the free path agreed with the search.
    FreeAgrees = 7,
    // Calls that refused its starting costs (15).
    Setups = 8,
    // Calls that refused its store limits (16).
    Stores = 9,
}

// Why each enum that is counted has one of these stands beside `Counts` in crates/trial_text.
impl From<Seen> for u8 {
    fn from(seen: Seen) -> u8 {
        seen as u8
    }
}

// What a path's agreement with the search is counted as: the number, since of an enum no clause says that it is low.
fn agreement(path: Path) -> u8
    ensures { result < 16 }
{
    let seen = match path {
        Path::Full => Seen::FullAgrees,
        Path::Uncapped => Seen::UncappedAgrees,
        Path::Equal => Seen::EqualAgrees,
        Path::Free => Seen::FreeAgrees,
    };
    seen as u8
}

// What a refusal is counted as, if it is.
fn refused(refusal: Refusal) -> Option<Seen> {
    match refusal {
        Refusal::UnequalCapacities | Refusal::BindingCapacity(_) => Some(Seen::Capacities),
        Refusal::SurplusInventory => Some(Seen::Opening),
        Refusal::PaidSetup(_) => Some(Seen::Setups),
        Refusal::LowStore(_) => Some(Seen::Stores),
        _ => None,
    }
}

// One path's call, in memory that suffices for every path.
fn call(path: Path, best: Option<Best>, day: Day<'_>, counts: &mut Counts) {
    let mut memory = LentMemory {
        costs: &mut [MARK.into(); 32],
        choices: &mut [MARK.into(); 102],
        slots: &mut [MARK.into(); 5],
    };
    let outcome = paths::run_lent(path, day, &mut memory);
    let answer = outcome.answer.map(|(totals, _)| totals);
    let agrees = plain::agrees(best, day, answer, memory.slots);
    counts.count_if(agreement(path), agrees);
    counts.count_if(Seen::Kept, outcome.kept);
    if let Err(refusal) = outcome.answer {
        if let Some(seen) = refused(refusal) {
            counts.count(seen);
        }
    }
}

// The calls on one day.
fn calls(day: Day<'_>, counts: &mut Counts) {
    let best = plain::search(day);
    counts.count_if(Seen::Plans, best.is_some());
    for path in Path::ALL {
        call(path, best, day, counts);
    }
}

// The days that a line asks for: with the capacities that the trial is named after, any where that is none, from the seed of field 1, as many as
// field 2 says, with ends of at most the number in field 3 and the store limits of field 4.
pub fn days_of(line: Line<'_>) -> Days {
    Days {
        kind: Kind {
            capacities: match line.name {
                b"equal" => Capacities::Equal,
                b"unbound" => Capacities::Unbound,
                _ => Capacities::Any,
            },
            // A field begins with the space after its ';'.
            stores: match line.field_bytes(4) {
                b" low" => Stores::Low,
                b" ample" => Stores::Ample,
                _ => Stores::Unlimited,
            },
            most: line.amount(3),
        },
        seed: line.amount(1),
        left: line.amount(2),
    }
}

// Made-up days; those of a trial named free have no setup cost.
pub fn made_up<R: Print>(rt: &R, line: Line<'_>) -> io::Result<()> {
    let mut counts = Counts::new();
    for mut tiny in days_of(line) {
        if matches!(line.name, b"free") {
            tiny.setup = [0; 4];
        }
        calls(tiny.day(), &mut counts);
    }
    print!(rt; "made-up ")?;
    text(rt, line.name)?;
    // By number, as a line gives its fields.
    for k in 1..5 {
        text(rt, line.field_bytes(k))?;
    }
    println!(rt; "{counts}")
}
