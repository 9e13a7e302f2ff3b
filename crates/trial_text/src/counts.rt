//! Counts.
use std::fmt;

const KINDS: usize = 21;

// The most that is counted of a kind.
const MOST: u64 = 1_000_000;

// How many there are of each kind, by the kind's number. It is printed with those numbers; a number past the last is not counted.
// Each enum of kinds has a `From` of its own, beside it: `as u8` takes one enum at a time, and std has no trait of the enums that it takes.
#[derive(Drop)]
pub struct Counts {
    of: [u64; KINDS],
}

impl Counts {
    pub fn new() -> Counts {
        Counts { of: [0; KINDS] }
    }

    // One more of a kind.
    pub fn count<K: Into<u8>>(&mut self, kind: K) {
        if let Some(n) = self.of.get_mut(usize::from(kind.into())) {
            *n = n.saturating_add(1).min(MOST);
        }
    }

    // Likewise, where it is one.
    pub fn count_if<K: Into<u8> + Drop>(&mut self, kind: K, more: bool) {
        if more {
            self.count(kind);
        }
    }
}

impl fmt::Display for Counts {
    fn fmt<W: fmt::Write>(&self, f: &mut fmt::Formatter<W>) -> fmt::Result {
        for (kind, n) in self.of.iter().enumerate() {
            if *n > 0 {
                write!(f, " {kind}: {n}")?;
            }
        }
        Ok(())
    }
}
