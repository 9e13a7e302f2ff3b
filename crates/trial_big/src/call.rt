//! The call, in lent memory whose every cell holds the mark.
use day::{Day, Sizes, Totals, Trials};
use std::io;
use trial_text::cells::{LentMemory, MARK, Memory, Outcome};
use trial_text::line::Line;
use trial_text::show::{Amounts, Cost, text};

// So many cost cells and slots: the call takes no choice area.
pub fn sizes(costs: usize, slots: usize) -> Sizes {
    Sizes {
        costs,
        choices: 0,
        slots,
    }
}

// The call, with so many trials allowed: a plan's totals, and the trials that it took. It needs 3 × n cost cells.
pub fn run_lent(
    day: Day<'_>,
    memory: &mut LentMemory<'_>,
    allowed: usize,
) -> Outcome<(Totals, Trials)> {
    let costs = &mut *memory.costs;
    let slots = &mut *memory.slots;
    let answer = big::plan(day, costs, slots, allowed);
    let n = day.periods();
    memory.outcome(answer, sizes(n.saturating_mul(3), n))
}

// Likewise, in a heap's memory.
pub fn run(day: Day<'_>, memory: &mut Memory, allowed: usize) -> Outcome<(Totals, Trials)> {
    run_lent(day, &mut memory.lent(), allowed)
}

// How many trials are allowed is in field 6, how many cost cells and slots are lent in fields 7 and 8: at most some more than the longest day needs.
pub fn lent<R: Print>(rt: &R, line: Line<'_>, day: Day<'_>) -> io::Result<()> {
    let mut costs = [MARK.into(); 300];
    let mut slots = [MARK.into(); 130];
    let lent = sizes(line.amount(7), line.amount(8));
    let mut memory = LentMemory::new(lent, &mut costs, &mut [], &mut slots);
    let outcome = run_lent(day, &mut memory, line.amount(6));
    text(rt, line.name)?;
    print!(rt; " big")?;
    outcome.print(rt, |(totals, trials)| {
        let Trials { used, gap } = trials;
        let plan = memory.plan(day.periods());
        print!(rt; "{}{} trials {used} gap {gap}", Amounts(plan), Cost(totals))
    })
}
