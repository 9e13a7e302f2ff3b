//! The four paths, in lent memory whose every cell holds the mark.
ghost use Rattle.std.specs.Prelude.{◌≤◌};

use day::{Day, Loads, Refusal, Sizes, Totals};
use std::{fmt, io};
use trial_text::cells::{LentMemory, MARK, Memory, Outcome};
use trial_text::days::total;
use trial_text::line::Line;
use trial_text::show::{Amounts, Cost, LoadCounts, text};

// `day::PathKind` has a fifth, which takes a number of trials too: crates/trial_big tries it.
// By match here, and in tiny.rt: each match is a table with a row for a path, and a type for each path would leave `ALL` nothing to hold.
#[derive(Clone, Copy)]
pub enum Path {
    Full,
    Uncapped,
    Equal,
    Free,
}

impl Path {
    pub const ALL: [Path; 4] = [Path::Full, Path::Uncapped, Path::Equal, Path::Free];

    // The path that a kind names.
    fn of(kind: &[u8]) -> Path {
        match kind {
            b"uncapped" => Path::Uncapped,
            b"equal" => Path::Equal,
            b"free" => Path::Free,
            _ => Path::Full,
        }
    }
}

impl fmt::Display for Path {
    fn fmt<W: fmt::Write>(&self, f: &mut fmt::Formatter<W>) -> fmt::Result {
        match self {
            Path::Full => write!(f, "full"),
            Path::Uncapped => write!(f, "uncapped"),
            Path::Equal => write!(f, "equal"),
            Path::Free => write!(f, "free"),
        }
    }
}

// How many cells and slots a path needs, of at most 128 periods. Counted here once more, and not by `path_checks::cells`: the trials judge that count.
pub fn needed(path: Path, day: Day<'_>) -> Sizes
    ensures { (result.costs ≤ 8196) × (result.choices ≤ 16785408) }
{
    let n = day.periods().min(128);
    let inventories = total(day) + 1;
    let (costs, choices) = match path {
        Path::Full => (2 * inventories, n * inventories),
        Path::Uncapped => (n + 1, n + 1),
        Path::Equal => (6 * (n + 1), 4 * (n + 1) * (n + 1)),
        Path::Free => (n, 0),
    };
    Sizes {
        costs,
        choices,
        slots: day.periods(),
    }
}

// A plan's totals, with its loads where the path counts them.
pub type Planned = (Totals, Option<Loads>);

// The free path takes no choice area.
fn plan(path: Path, day: Day<'_>, memory: &mut LentMemory<'_>) -> Result<Planned, Refusal> {
    let costs = &mut *memory.costs;
    let choices = &mut *memory.choices;
    let slots = &mut *memory.slots;
    match path {
        Path::Full => full::plan(day, costs, choices, slots).map(|totals| (totals, None)),
        Path::Uncapped => uncapped::plan(day, costs, choices, slots).map(|totals| (totals, None)),
        Path::Equal => equal::plan(day, costs, choices, slots).map(|(totals, loads)| (
            totals,
            Some(loads),
        )),
        Path::Free => free::plan(day, costs, slots).map(|totals| (totals, None)),
    }
}

// A path in lent memory.
pub fn run_lent(path: Path, day: Day<'_>, memory: &mut LentMemory<'_>) -> Outcome<Planned> {
    let answer = plan(path, day, memory);
    memory.outcome(answer, needed(path, day))
}

// Likewise, in a heap's memory.
pub fn run(path: Path, day: Day<'_>, memory: &mut Memory) -> Outcome<Planned> {
    run_lent(path, day, &mut memory.lent())
}

// The most cost cells that are lent to a path: two more than the full path needs for the largest day. On the stack, since a path takes no heap.
pub const COSTS: usize = 8196;

// Likewise of choice cells.
pub const CHOICES: usize = 393_314;

// And of slots: two more than a table has room.
const SLOTS: usize = 130;

// One path in so many cells and slots.
fn within(
    rt: &impl Print,
    line: Line<'_>,
    path: Path,
    day: Day<'_>,
    lent: Sizes,
) -> io::Result<()> {
    let mut costs = [MARK.into(); COSTS];
    let mut choices = [MARK.into(); CHOICES];
    let mut slots = [MARK.into(); SLOTS];
    let mut memory = LentMemory::new(lent, &mut costs, &mut choices, &mut slots);
    let outcome = run_lent(path, day, &mut memory);
    text(rt, line.name)?;
    print!(rt; " {path}")?;
    outcome.print(rt, |(totals, loads)| {
        print!(rt; "{}{}", Amounts(memory.plan(day.periods())), Cost(totals))?;
        match loads {
            Some(loads) => print!(rt; "{}", LoadCounts(loads)),
            None => Ok(()),
        }
    })
}

// Each path in two cells and a slot more than it needs.
pub fn all<R: Print>(rt: &R, line: Line<'_>, day: Day<'_>) -> io::Result<()> {
    for path in Path::ALL {
        let need = needed(path, day);
        let lent = Sizes {
            costs: need.costs.saturating_add(2),
            choices: need.choices.saturating_add(2),
            slots: need.slots.saturating_add(1),
        };
        within(rt, line, path, day, lent)?;
    }
    Ok(())
}

// One path in as many cost cells, choice cells and slots as fields 6, 7 and 8 say.
pub fn lent<R: Print>(rt: &R, line: Line<'_>, day: Day<'_>) -> io::Result<()> {
    let lent = Sizes {
        costs: line.amount(6),
        choices: line.amount(7),
        slots: line.amount(8),
    };
    within(rt, line, Path::of(line.kind), day, lent)
}
