//! Needs known as ranges: the least cost of a day with its lowest needs and with its highest, by the full path.
#![tactic(auto)]

ghost use Rattle.std.specs.Prelude.{◌≡◌, [], None};
ghost use Rattle.day.specs.Lent.{lent_day, areas_before, areas_after};
ghost use Rattle.day.specs.Outcome.{memory_of, sizes_of};
ghost use Rattle.day.specs.Ranges.{range_refusal, BothBounded, Bounding};

use day::{Bounds, Day, Refusal, Sizes};

// The work, once the tests have passed: the full path on both tables, into slots of its own, since none are lent. The lowest needs come beside
// the day for the reason beside `range_checks::tables`, the areas one by one for that beside `tables::put`.
fn work(lowest: &[u16], day: Day, costs: &mut [u64], choices: &mut [u16]) -> Bounds
    requires { range_refusal lowest.now (lent_day day) (sizes_of (memory_of costs.old choices.old [])) ≡ None }
    ensures { BothBounded lowest.now (lent_day day.entry) result
        (areas_before costs choices)
        (areas_after costs choices) }
{
    // There is no heap: of slots for the longest day the front.
    let mut plan = [0u16; 96];
    let slots = &mut plan[..day.periods()];
    let low = full::work(day.with_demand(lowest), costs, choices, slots);
    let high = full::work(day, costs, choices, slots);
    Bounds {
        lowest: low.cost,
        highest: high.cost,
    }
}

// The least cost of the day with the lowest needs, and with the highest, which are its demands.
pub fn least_costs(
    lowest: &[u16],
    day: Day,
    costs: &mut [u64],
    choices: &mut [u16],
) -> Result<Bounds, Refusal>
    ensures { Bounding lowest.now (lent_day day.entry)
        (areas_before costs choices)
        result
        (areas_after costs choices) }
{
    let lent = Sizes {
        costs: costs.len(),
        choices: choices.len(),
        slots: 0,
    };
    range_checks::tests(lowest, day, lent)?;
    Ok(work(lowest, day, costs, choices))
}
