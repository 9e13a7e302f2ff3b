//! What a C program sees of an answer: one code, and its numbers in the call's out-array; the stamp that it expects (include/yakkurem.h).
#![tactic(auto)]

ghost use Rattle.std.specs.Prelude.{◌≡◌, refl, List, None};
ghost use Rattle.day.specs.Refusals.{number_of, period_of};
ghost use Rattle.day.specs.Figures.{Figures, figures_by, refused_with, plan_values, equal_values, bounds_values, big_values};
ghost use Rattle.dayfile.specs.Answers.{part_values, read_values, write_values};
ghost use Rattle.weigher.specs.Answers.{fault_figures, compared_values, rule_number};
ghost use Rattle.weigher.specs.declared.Fault.TheVariants.{Refused as fault_refused, Broken as fault_broken};
ghost use Rattle.play.specs.Answers.{play_values};
ghost use Rattle.codes.specs.Codes.{code_of, seen, seen_of, check_code, expected_of};

use day::{Bounds, Ends, Loads, Refusal, Stamp, Totals, Trials};
use dayfile::lookup::Part;
use play::Flows;
use weigher::{Breach, Fault};

// Why a call gives nothing: its figures are a number and the period that it names, and no values.
pub trait Coded<A> {
    ghost figures: { Self → Figures A };

    fn code(self) -> u64
        ensures { result ≡ code_of (figures self).number (figures self).period };

    ghost no_values: { (why : Self) → (figures why).values ≡ None };
}

// What a call gives, as the numbers of its out-array. No From: only a type's own crate may write one into an array.
pub trait Given<A, const N: usize> {
    ghost values: { Self → List A };

    fn numbers(self) -> [A; N]
        ensures { result ≡ values self };
}

// A number and a period as one code.
fn code(number: u8, period: u16) -> u64
    ensures { result ≡ code_of number period }
{
    u64::from(number) + 256 * u64::from(period)
}

// Of a refusal.
pub fn refused(r: Refusal) -> u64
    ensures { result ≡ code_of (number_of r) (period_of r) }
{
    code(r.number(), r.period())
}

fn broken(b: Breach) -> u64
    ensures { result ≡ code_of (rule_number b.rule) b.period }
{
    code(b.rule.number(), b.period)
}

impl<A> Coded<A> for Refusal {
    ghost figures = { refused_with };

    ghost no_values = { λ r. refl };

    fn code(self) -> u64 {
        refused(self)
    }
}

impl<A> Coded<A> for Fault {
    ghost figures = { fault_figures };

    ghost no_values = { elim [ fault_refused r ↦ refl | fault_broken b ↦ refl ] };

    fn code(self) -> u64 {
        match self {
            Fault::Refused(r) => refused(r),
            Fault::Broken(b) => broken(b),
        }
    }
}

// A plan's cost and setups.
impl Given<u64, 2> for Totals {
    ghost values = { plan_values };

    fn numbers(self) -> [u64; 2] {
        [self.cost, self.setups]
    }
}

// The plan's loads too.
impl Given<u64, 4> for (Totals, Loads) {
    ghost values = { equal_values };

    fn numbers(self) -> [u64; 4] {
        let (t, l) = self;
        [t.cost, t.setups, l.full, l.part]
    }
}

// The least cost for the lowest needs, and for the highest.
impl Given<u64, 2> for Bounds {
    ghost values = { bounds_values };

    fn numbers(self) -> [u64; 2] {
        [self.lowest, self.highest]
    }
}

// The cost and setups of a big day's plan, the trials used, the gap.
impl Given<u64, 4> for (Totals, Trials) {
    ghost values = { big_values };

    fn numbers(self) -> [u64; 4] {
        let (t, b) = self;
        [t.cost, t.setups, b.used, b.gap]
    }
}

// The difference of two plans.
impl Given<i64, 1> for i64 {
    ghost values = { compared_values };

    fn numbers(self) -> [i64; 1] {
        [self]
    }
}

// What was produced, delivered, lost and disposed of (made, delivered, missed, spilled), and what is left.
impl Given<u64, 5> for Flows {
    ghost values = { play_values };

    fn numbers(self) -> [u64; 5] {
        let f = self;
        [f.produced, f.delivered, f.lost, f.disposed, f.left]
    }
}

// The count of a file's periods, and the ends.
impl Given<u64, 3> for (usize, Ends) {
    ghost values = { read_values };

    fn numbers(self) -> [u64; 3] {
        let (n, ends) = self;
        // `as`, here and below: from usize std has no From for u64.
        [n as u64, u64::from(ends.opening), u64::from(ends.closing)]
    }
}

// The count of bytes.
impl Given<u64, 1> for usize {
    ghost values = { write_values };

    fn numbers(self) -> [u64; 1] {
        [self as u64]
    }
}

// Where a part begins, and how long it is.
impl Given<u64, 2> for Part {
    ghost values = { part_values };

    fn numbers(self) -> [u64; 2] {
        [self.first as u64, self.size as u64]
    }
}

// What is shown of an answer: its code, and in the out-array what it gives; an array of a call that gives nothing stays as it was.
pub fn shown<A: Copy, T: Given<A, N> + Drop, E: Coded<A> + Drop, const N: usize>(
    answer: Result<T, E>,
    out: &mut [A; N],
) -> u64
    ensures { seen result out.new ≡ seen_of out.old (figures_by T.values E.figures answer) }
{
    match answer {
        Ok(given) => {
            *out = given.numbers();
            0
        }
        Err(why) => why.code(),
    }
}

// Of a call that answers with its tests alone: it has no out-array.
pub fn checked(answer: Result<(), Refusal>) -> u64
    ensures { result ≡ check_code answer }
{
    answer.err().map_or(0, refused)
}

// The stamp that a C program expects, as two numbers; none where they are fewer or more.
pub fn expected(numbers: &[u16]) -> Option<Stamp>
    ensures { result ≡ expected_of numbers.now }
{
    match numbers {
        [station, date] => Some(Stamp {
            station: *station,
            date: *date,
        }),
        _ => None,
    }
}
