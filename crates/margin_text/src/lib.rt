//! The text that `margins` prints for a day and a file of actual needs.
#![tactic(auto)]

ghost use Rattle.std.specs.Prelude.{◌≡◌, ◌+◌, ◌*◌, ◌/◌, ◌≤◌, ◌<◌, length, IfOk, OnOk, IfErr};
ghost use Rattle.day.specs.Sums.{at};
ghost use Rattle.day.specs.Day.{max_demand, max_periods, periods};
ghost use Rattle.day.specs.Lent.{lent_day};
ghost use Rattle.day.specs.Refusals.{first};
ghost use Rattle.checks.specs.Passed.{Limits};
ghost use Rattle.margin_text.specs.Margins.{margins, raised, raised_needs, needs_in, needs_tests, SaysDayLine, SaysMargin, SaysMargins, SaysMarginsOf};
ghost use Rattle.margin_text.specs.Laws.{LowNeeds, Tried};

use arrayvec::ArrayVec;
use day::{Day, Refusal};
use dayfile::layout;
use lines::{MarginLine, Text};

// A need for each period.
type Needs = ArrayVec<u16, 96>;

const MARGINS: u16 = 16;

// A need with a margin. A margin is a number that is counted up and printed, and no type of its own: that it is low is asked once more in `raise` and in
// `margin_line`, which hand it on.
fn raised(margin: u16, need: u16) -> u16
    requires { (margin < margins) × (need ≤ max_demand) }
    ensures { result ≡ raised margin need }
{
    if need > 0 { need + margin } else { need }
}

// The needs of a day with a margin.
fn raise(margin: u16, demand: &[u16]) -> Needs
    requires margin_lt_margins { margin < margins }
    requires low_needs { LowNeeds demand.now }
    ensures needs { result.items ≡ raised_needs margin demand.now }
    ensures len { length result.items ≡ length demand.now }
{
    let mut needs = Needs::new();
    for need in demand {
        needs.push(raised(margin, *need));
    }
    needs
}

// The actual needs in a file of two bytes each.
fn decode(file: &[u8]) -> Needs
    requires { length file.now ≤ 2 * max_periods }
    ensures needs { result.items ≡ needs_in file.now (length file.now / 2) }
    ensures len { length result.items ≡ length file.now / 2 }
{
    let mut needs = Needs::new();
    for pair in file.chunks_exact(2) {
        needs.push(layout::number2(pair, 0));
    }
    needs
}

// The line of a day whose needs have the margin. Day and actual needs come one by one, here and below: this day has other needs than the one that was
// tried, and of the two only the length is known, so a struct that holds `Tried` would serve two functions alone.
fn day_line(margin: u64, day: Day, actual: &[u16]) -> MarginLine
    requires { length actual.now ≡ periods (lent_day day) }
    ensures { SaysDayLine (lent_day day.entry) (at actual.now) margin result.bytes }
{
    // An array, for the reason in program_plan.
    let mut slots = [0u16; 96];
    match program_plan::plan(day, &mut slots) {
        Ok(totals) => {
            let p = play::run(&slots, actual, day.store, day.ends.opening);
            lines::played_line(margin, totals.cost, p.lost, p.disposed)
        }
        Err(refusal) => lines::margin_refusal_line(margin, refusal),
    }
}

// The line of a margin.
fn margin_line(margin: u16, day: Day, actual: &[u16]) -> MarginLine
    requires margin_lt_margins { margin < margins }
    requires tried { Tried (lent_day day) actual.now }
    ensures { SaysMargin (lent_day day.entry) (at actual.now) margin result.bytes }
{
    let needs = raise(margin, day.demand);
    day_line(u64::from(margin), day.with_demand(&needs), actual)
}

// A line for each margin.
fn margin_lines(day: Day, actual: &[u16], text: &mut Text)
    requires { Tried (lent_day day) actual.now }
    ensures { SaysMargins (lent_day day.entry) (at actual.now) margins text.new.bytes }
{
    text.clear();
    for margin in 0..MARGINS {
        text.push_str(&margin_line(margin, day, actual));
    }
}

// The actual needs of a day: 2 and 3 on them decide whether they are taken. `Limits` is asked of the day, here, in `say_day` and in program_text: a type
// of tested days would be made for one call, and opened by the next.
fn actual_needs(day: Day, file: &[u8]) -> Result<Needs, Refusal>
    requires { Limits (lent_day day) }
    ensures taken { IfOk result (λ needs. needs.items ≡ needs_in file.now (periods (lent_day day.entry))) }
    ensures len { IfOk result (λ needs. length needs.items ≡ periods (lent_day day.entry)) }
    ensures passed { OnOk result (first (needs_tests file.now (lent_day day.entry)) ≡ None) }
    ensures refused { IfErr result (λ r. first (needs_tests file.now (lent_day day.entry)) ≡ Some r) }
{
    if file.len() != 2 * day.periods() {
        return Err(Refusal::TableLength);
    }
    let actual = decode(file);
    checks::values(day.with_demand(&actual))?;
    Ok(actual)
}

// The text of a day that has passed 1, 2 and 3: that of a refusal of the actual needs, or the lines. It is lent, as in plan_text.
pub fn say_day(day: Day, file: &[u8], text: &mut Text)
    requires { Limits (lent_day day) }
    ensures { SaysMarginsOf file.now (lent_day day.entry) text.new.bytes }
{
    match actual_needs(day, file) {
        Ok(actual) => margin_lines(day, &actual, text),
        Err(refusal) => lines::say_refusal(refusal, text),
    }
}

// Likewise, where there is room for a text of its own.
pub fn day_text(day: Day, file: &[u8]) -> Text
    requires { Limits (lent_day day) }
    ensures { SaysMarginsOf file.now (lent_day day.entry) result.bytes }
{
    let mut text = Text::new();
    say_day(day, file, &mut text);
    text
}
