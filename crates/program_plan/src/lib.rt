//! The full path as the programs run it: in areas of a fixed size, with slots lent.
#![tactic(auto)]

ghost use Rattle.day.specs.Lent.{lent_day};
ghost use Rattle.program_plan.specs.Areas.{PlansInAreas};

use day::{Day, Refusal, Totals};

// The full path, in areas of its own. They are arrays, since with a heap's memory the call could fail for one reason more.
pub fn plan(day: Day, slots: &mut [u16]) -> Result<Totals, Refusal>
    ensures { PlansInAreas (lent_day day.entry) slots.old result slots.new }
{
    let mut costs = [0u64; 1000];
    let mut choices = [0u16; 24000];
    full::plan(day, &mut costs, &mut choices, slots)
}
