//! What the trials print, each with a space before it. A type for each, since Rust takes no `Display` of another crate's type here.
use day::{Ends, Loads, Refusal, Totals};
use std::io::Write;
use std::{fmt, io};

// The bytes of a line as they are: they need be no text, which `Display` writes alone.
pub fn text(rt: &impl Print, bytes: &[u8]) -> io::Result<()> {
    io::writer(rt).write_all(bytes)
}

// Amounts, one after the other.
#[derive(Clone, Copy)]
pub struct Amounts<'a>(pub &'a [u16]);

impl fmt::Display for Amounts<'_> {
    fn fmt<W: fmt::Write>(&self, f: &mut fmt::Formatter<W>) -> fmt::Result {
        for amount in self.0 {
            write!(f, " {amount}")?;
        }
        Ok(())
    }
}

// A refusal, by its number and period.
#[derive(Clone, Copy)]
pub struct Refused(pub Refusal);

impl fmt::Display for Refused {
    fn fmt<W: fmt::Write>(&self, f: &mut fmt::Formatter<W>) -> fmt::Result {
        let refusal = self.0;
        write!(
            f,
            " refused {} period {}",
            refusal.number(),
            refusal.period()
        )
    }
}

// A plan's cost and starts.
#[derive(Clone, Copy)]
pub struct Cost(pub Totals);

impl fmt::Display for Cost {
    fn fmt<W: fmt::Write>(&self, f: &mut fmt::Formatter<W>) -> fmt::Result {
        let Totals { cost, setups } = self.0;
        write!(f, " cost {cost} starts {setups}")
    }
}

// A plan's full-load and part-loaded periods.
#[derive(Clone, Copy)]
pub struct LoadCounts(pub Loads);

impl fmt::Display for LoadCounts {
    fn fmt<W: fmt::Write>(&self, f: &mut fmt::Formatter<W>) -> fmt::Result {
        let Loads { full, part } = self.0;
        write!(f, " full-load {full} part-loaded {part}")
    }
}

// The ends of a day that has any.
#[derive(Clone, Copy)]
pub struct Charge(pub Ends);

impl fmt::Display for Charge {
    fn fmt<W: fmt::Write>(&self, f: &mut fmt::Formatter<W>) -> fmt::Result {
        let Ends { opening, closing } = self.0;
        if 0 < opening || 0 < closing {
            write!(f, " opening {opening} closing {closing}")?;
        }
        Ok(())
    }
}

// The store limits of a day, where one of them limits anything. 65,535 does not: it is no Option, for the reason beside `NO_LIMIT` in crates/dayfile.
#[derive(Clone, Copy)]
pub struct Stores<'a>(pub &'a [u16]);

impl fmt::Display for Stores<'_> {
    fn fmt<W: fmt::Write>(&self, f: &mut fmt::Formatter<W>) -> fmt::Result {
        if self.0.iter().any(|limit| *limit < u16::MAX) {
            write!(f, " stores{}", Amounts(self.0))?;
        }
        Ok(())
    }
}

// Whether a call left lent cells as it must. Nothing is printed where it did.
#[derive(Clone, Copy)]
pub struct Kept(pub bool);

impl fmt::Display for Kept {
    fn fmt<W: fmt::Write>(&self, f: &mut fmt::Formatter<W>) -> fmt::Result {
        if !self.0 {
            write!(f, ", WRONG CELLS")?;
        }
        Ok(())
    }
}
