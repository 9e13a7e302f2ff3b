//! The trials' crates: lines as text, tables and memory of a heap.
use day::Refusal;
use std::test::Fail;
use trial_big::call;
use trial_paths::paths;
use trial_paths::paths::Path;
use trial_text::cells::Memory;
use trial_text::days::{Tables, ends_of};
use trial_text::line::{Line, first, for_all, numbers, repeated};

// To start costs 20, a unit 1, a unit held from a period to the next 2: all made in period 1 costs 20 + 5 + 12, each where it is needed 40 + 5.
const DAY: &str = "day three; 2 0 3; 5x3; 20; 1; 1";

#[test]
fn parts_of_a_line(rt: HostRuntime) {
    let line = Line::new("weigh two words; 4x2 7; 9");
    assert_eq!(rt; line.first_word(), "two");
    assert_eq!(rt; line.field(2), " 9");
    assert_eq!(rt; line.field(3), "");
    let nine: u16 = line.number(2);
    assert_eq!(rt; nine, 9);
}

#[test]
fn numbers_of_a_text(rt: HostRuntime) -> Result<(), Fail> {
    let amount: u32 = first(" 70000 1");
    assert_eq!(rt; amount, 70000);
    let (value, times) = repeated("4x2");
    assert_eq!(rt; value, "4");
    assert_eq!(rt; times, 2);
    let amounts: Vec<u16> = numbers(rt.alloc(), "4x2 7")?;
    assert_eq!(rt; amounts.as_slice(), [4, 4, 7].as_slice());
    let alone: Vec<u32> = for_all(rt.alloc(), "3", 2)?;
    assert_eq!(rt; alone.as_slice(), [3, 3].as_slice());
    Ok(())
}

#[test]
fn a_day_of_a_heap(rt: HostRuntime) -> Result<(), Fail> {
    let line = Line::new(DAY);
    let tables = Tables::of(rt.alloc(), line)?;
    let day = tables.day(ends_of(line));
    assert_eq!(rt; day.demand, [2, 0, 3].as_slice());
    assert_eq!(rt; day.capacity, [5, 5, 5].as_slice());
    assert_eq!(rt; day.setup, [20, 20, 20].as_slice());
    assert_eq!(rt; day.store, [65535, 65535, 65535].as_slice());

    let needed = paths::needed(Path::Full, day);
    let mut memory = Memory::new(rt.alloc(), needed)?;
    let refused = memory.outcome::<()>(Err(Refusal::SurplusInventory), needed);
    assert!(rt; refused.kept);
    assert_eq!(rt; memory.lent().slots.len(), 3);
    let planned = paths::run(Path::Full, day, &mut memory);
    assert!(rt; planned.kept);
    assert!(rt; matches!(planned.answer, Ok((totals, None)) if totals.cost == 37));
    assert_eq!(rt; memory.plan(3), [5, 0, 0].as_slice());

    let mut memory = Memory::new(rt.alloc(), call::sizes(9, 3))?;
    let planned = call::run(day, &mut memory, 1);
    assert!(rt; planned.kept);
    assert!(rt;
        matches!(planned.answer, Ok((totals, trials)) if totals.cost == 45 && trials.gap == 40)
    );
    assert_eq!(rt; memory.plan(3), [2, 0, 3].as_slice());
    Ok(())
}

#[test]
fn marked_tables(rt: HostRuntime) -> Result<(), Fail> {
    let marked = Tables::marked(rt.alloc(), 2)?;
    assert_eq!(rt; marked.demand.as_slice(), [119, 119].as_slice());
    assert_eq!(rt; marked.holding.as_slice(), [119, 119].as_slice());
    Ok(())
}

// Each call that names the runtime's type: what it prints the program `trials` compares.
#[test]
fn trials_at_a_runtime(rt: HostRuntime) -> Result<(), Fail> {
    let line = Line::new("day three; 2 0 3; 5x3; 20; 1; 1; 1 0 3; 9; 3");
    let tables = Tables::of(rt.alloc(), line)?;
    let day = tables.day(ends_of(line));
    paths::all::<HostRuntime>(&rt, line, day)?;
    paths::lent::<HostRuntime>(&rt, line, day)?;
    call::lent::<HostRuntime>(&rt, line, day)?;
    trial_bounds::bounds::<HostRuntime>(&rt, line, day)?;
    trial_files::write::<HostRuntime>(&rt, line, day)?;
    trial_plans::plans::<HostRuntime>(&rt, line, day)?;
    trial_play::play::<HostRuntime>(&rt, line, day)?;
    trial_files::file::<HostRuntime>(&rt, Line::new("file look; 00; 1"))?;
    trial_paths::tiny::made_up::<HostRuntime>(&rt, Line::new("made-up any; 1; 1; 0"))?;
    Ok(())
}
