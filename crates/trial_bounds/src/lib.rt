//! Trials of needs known as ranges, in lent areas whose every cell holds the mark.
#![tactic(auto)]

use day::{Bounds, Day, Sizes};
use std::io;
use trial_paths::paths;
use trial_paths::paths::{CHOICES, COSTS, Path};
use trial_text::cells::{LentMemory, MARK, Outcome};
use trial_text::line::{Line, Numbers, amounts};
use trial_text::show::text;

// The call. After a refusal every cell holds the mark. Otherwise the cells that the full path needs for the highest needs hold zero, later ones the mark.
fn run(lowest: &[u16], day: Day<'_>, memory: &mut LentMemory<'_>) -> Outcome<Bounds> {
    let costs = &mut *memory.costs;
    let choices = &mut *memory.choices;
    let answer = bounds::least_costs(lowest, day, costs, choices);
    memory.outcome(answer, paths::needed(Path::Full, day))
}

// The lowest needs are in field 6, how many cost cells and choice cells are lent in fields 7 and 8.
pub fn bounds<R: Print>(rt: &R, line: Line<'_>, day: Day<'_>) -> io::Result<()> {
    let lowest: Numbers<u16> = amounts(line.field_bytes(6));
    let lent = Sizes {
        costs: line.amount(7),
        choices: line.amount(8),
        slots: 0,
    };
    let mut costs = [MARK.into(); COSTS];
    let mut choices = [MARK.into(); CHOICES];
    let mut memory = LentMemory::new(lent, &mut costs, &mut choices, &mut []);
    let outcome = run(lowest.as_slice(), day, &mut memory);
    text(rt, line.name)?;
    print!(rt; " bounds")?;
    outcome.print(rt, |bounds| {
        let Bounds { lowest, highest } = bounds;
        print!(rt; " lowest {lowest} highest {highest}")
    })
}
