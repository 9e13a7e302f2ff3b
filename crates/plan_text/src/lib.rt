//! The text that `dayplan` prints for a day.
#![tactic(auto)]

ghost use Rattle.std.specs.Prelude.{◌≡◌, ◌++◌};
ghost use Rattle.day.specs.Sums.{at};
ghost use Rattle.day.specs.Day.{periods};
ghost use Rattle.day.specs.Lent.{lent_day};
ghost use Rattle.lines.specs.Text.{plan_line, HavePeriods};
ghost use Rattle.plan_text.specs.Text.{amount_lines, SaysPlanOf};

use day::{Day, Totals};
use lines::Text;

// The lines of a plan: its first, and one for each period. By index: a line gives the period's number, and what both tables' entries up to it leave.
fn plan_lines(day: Day, plan: &[u16], totals: Totals, text: &mut Text)
    requires { HavePeriods day.demand.now plan.now (periods (lent_day day)) }
    ensures { text.new.bytes ≡ plan_line (periods (lent_day day.entry)) totals.cost totals.setups
        ++ amount_lines (lent_day day.entry) (at plan.now) (periods (lent_day day.entry)) }
{
    text.clear();
    // `as`: from usize std has no From for u64.
    text.push_str(&lines::plan_line(day.periods() as u64, totals.cost, totals.setups));
    for i in 0..day.periods() {
        text.push_str(&lines::amount_line(day, plan, i));
    }
}

// The text of a day: its plan by the full path, or the refusal. It goes into a text that is lent, here and in what calls this, whatever that held: given
// back by value its 9,312 bytes would lie on the stack once for each of them.
pub fn say_day(day: Day, text: &mut Text)
    ensures { SaysPlanOf (lent_day day.entry) text.new.bytes }
{
    // An array, as the areas in program_plan, and for their reason.
    let mut slots = [0u16; 96];
    match program_plan::plan(day, &mut slots) {
        Ok(totals) => plan_lines(day, &slots, totals, text),
        Err(refusal) => lines::say_refusal(refusal, text),
    }
}

// Likewise, where there is room for a text of its own.
pub fn day_text(day: Day) -> Text
    ensures { SaysPlanOf (lent_day day.entry) result.bytes }
{
    let mut text = Text::new();
    say_day(day, &mut text);
    text
}
