//! Lines of text, each a string with room for the longest of its kind.
#![tactic(auto)]

ghost use Rattle.std.specs.Prelude.{◌≡◌, ◌+◌, ◌≤◌, ◌++◌, length};
ghost use Rattle.day.specs.Sums.{at};
ghost use Rattle.day.specs.Lent.{lent_day};
ghost use Rattle.day.specs.Plan.{inventory as left};
ghost use Rattle.lines.specs.Text.{labelled, line_of, labels, line_room, text_bytes, line_bytes, HavePeriods};
ghost use Rattle.lines.specs.Text.{plan_line, amount_line, refusal_line, played_line, margin_refusal_line};

use arrayvec::ArrayString;
use day::{Day, Refusal};
use itoa::Buffer;

/// A line of a plan.
pub type Line = ArrayString<96>;

/// The line of a margin.
pub type MarginLine = ArrayString<123>;

/// A text, with room for 97 lines of a plan.
pub type Text = ArrayString<9312>;

// Puts a word and a number in decimal behind a text. By `push_str`: of `write!` it is known what it wrote where it gives Ok, and not that it does where
// there is room.
fn put<const CAP: usize>(text: &mut ArrayString<CAP>, word: &str, n: u64)
    requires { length text.old.bytes + (length word.now + 20) ≤ CAP }
    ensures said { text.new.bytes ≡ text.old.bytes ++ labelled word.now n }
    ensures few { length text.new.bytes ≤ length text.old.bytes + (length word.now + 20) }
{
    text.push_str(word);
    text.push_str(Buffer::new().format(n));
}

// A line: words, each with a number in decimal, and the line's end.
fn line<const CAP: usize>(parts: &[(&str, u64)]) -> ArrayString<CAP>
    requires room { line_room (labels parts.now) ≤ CAP }
    requires few { CAP ≤ text_bytes }
    ensures said { result.bytes ≡ line_of (labels parts.now) }
    ensures short { length result.bytes ≤ line_room (labels parts.now) }
{
    let mut text = ArrayString::new();
    for &(word, n) in parts {
        put(&mut text, word, n);
    }
    text.push('\n');
    text
}

// The first line of a plan.
pub fn plan_line(n: u64, cost: u64, setups: u64) -> Line
    ensures { result.bytes ≡ plan_line n cost setups }
{
    line(&[("periods ", n), (" cost ", cost), (" starts ", setups)])
}

// The inventory left after the first i periods. Day and plan come one by one, here, in `amount_line` and in plan_text: how many periods both must have
// is another number in each, and so no fact about the two alone.
fn inventory(day: Day, plan: &[u16], i: usize) -> u64
    requires { HavePeriods day.demand.now plan.now i }
    ensures { result ≡ left (lent_day day.entry) (at plan.now) i }
{
    let there = checks::summed(&plan[..i]) + u64::from(day.ends.opening);
    there.saturating_sub(checks::summed(&day.demand[..i]))
}

// The period at index i of a plan: its amount, and the inventory left after it.
pub fn amount_line(day: Day, plan: &[u16], i: usize) -> Line
    requires { HavePeriods day.demand.now plan.now (i + 1) }
    ensures { result.bytes ≡ amount_line (lent_day day.entry) (at plan.now) i }
{
    let left = inventory(day, plan, i + 1);
    let made = u64::from(plan[i]);
    // `as`: from usize std has no From for u64.
    line(&[("", (i + 1) as u64), (" made ", made), (" left ", left)])
}

// A refusal.
pub fn short_refusal_line(refusal: Refusal) -> Line
    ensures said { result.bytes ≡ refusal_line refusal }
    ensures few { length result.bytes ≤ line_bytes }
{
    let number = u64::from(refusal.number());
    let period = u64::from(refusal.period());
    line(&[("refused ", number), (" period ", period)])
}

// A refusal's line as a whole text.
pub fn say_refusal(refusal: Refusal, text: &mut Text)
    ensures { text.new.bytes ≡ refusal_line refusal }
{
    text.clear();
    text.push_str(&short_refusal_line(refusal));
}

// Likewise, where there is room for a text of its own.
pub fn refusal_line(refusal: Refusal) -> Text
    ensures said { result.bytes ≡ refusal_line refusal }
    ensures few { length result.bytes ≤ line_bytes }
{
    let mut whole = Text::new();
    whole.push_str(&short_refusal_line(refusal));
    whole
}

// A margin with the cost of its plan, and what that missed and spilled when it was played.
pub fn played_line(margin: u64, cost: u64, lost: u64, disposed: u64) -> MarginLine
    ensures { result.bytes ≡ played_line margin cost lost disposed }
{
    line(&[
        ("margin ", margin),
        (" cost ", cost),
        (" missed ", lost),
        (" spilled ", disposed),
    ])
}

// A margin whose day is refused.
pub fn margin_refusal_line(margin: u64, refusal: Refusal) -> MarginLine
    ensures { result.bytes ≡ margin_refusal_line margin refusal }
{
    let number = u64::from(refusal.number());
    let period = u64::from(refusal.period());
    line(&[
        ("margin ", margin),
        (" refused ", number),
        (" period ", period),
    ])
}
