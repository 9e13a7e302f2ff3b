//! Trials of the weigher, on plans that a line gives, and of the plain search, which weighs them all.
#![tactic(auto)]

use day::Day;
use std::{fmt, io};
use trial_text::days::total;
use trial_text::line::{Line, Numbers, amounts};
use trial_text::show::{Amounts, Cost, Refused, text};
use weigher::{Breach, Fault};

// What every call that judges a plan prints of one that it refuses, or that breaks a rule.
#[derive(Clone, Copy)]
pub struct Failed(pub Fault);

impl fmt::Display for Failed {
    fn fmt<W: fmt::Write>(&self, f: &mut fmt::Formatter<W>) -> fmt::Result {
        match self.0 {
            Fault::Refused(refusal) => write!(f, "{}", Refused(refusal)),
            Fault::Broken(Breach { rule, period }) => {
                write!(f, " broken {} period {period}", rule.number())
            }
        }
    }
}

// The plan of field 6, alone or, where the kind is `compare`, beside that of field 7.
pub fn plans<R: Print>(rt: &R, line: Line<'_>, day: Day<'_>) -> io::Result<()> {
    let plan: Numbers<u16> = amounts(line.field_bytes(6));
    let other: Numbers<u16> = amounts(line.field_bytes(7));
    text(rt, line.name)?;
    if matches!(line.kind, b"compare") {
        match weigher::compare(day, plan.as_slice(), other.as_slice()) {
            Ok(difference) => println!(rt; " difference {difference}"),
            Err(fault) => println!(rt; "{}", Failed(fault)),
        }
    } else {
        match weigher::weigh(day, plan.as_slice()) {
            Ok(totals) => println!(rt; "{}", Cost(totals)),
            Err(fault) => println!(rt; "{}", Failed(fault)),
        }
    }
}

// What the plain search finds, where the day is tiny.
pub fn searched(rt: &impl Print, line: Line<'_>, day: Day<'_>) -> io::Result<()> {
    let n = day.periods();
    if 4 < n || 10 < total(day) {
        return Ok(());
    }
    text(rt, line.name)?;
    print!(rt; " search")?;
    match plain::search(day) {
        Some(best) => println!(rt; "{}{}", Amounts(&best.plan[..n]), Cost(best.totals)),
        None => println!(rt; " no plan"),
    }
}
