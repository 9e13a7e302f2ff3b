//! A stage and the row of costs before it: what an amount for a total comes to, and the best amount by one scan.

ghost use Rattle.std.specs.Prelude.{◌≡◌, ◌+◌};
ghost use Rattle.std.proofs.Math.Decide.{dec_lt};
ghost use Rattle.day.specs.Sums.{at};
ghost use Rattle.theory.specs.Basics.{pick};
ghost use Rattle.full_rows.specs.Row.{choice_of, best_of, cell_of, Small, Open, After, LeadsTo};
ghost use Rattle.full_rows.specs.Queue.{key_of, Entry};

use crate::{Cell, Choice, Stage};
use std::cmp::min_by_key;

#[derive(Clone, Copy)]
pub struct Row<'a> {
    pub stage: Stage,
    pub costs: &'a [u64],
    ghost opened: { Open stage costs.now },
}

impl Row<'_> {
    // What an amount comes to for a total.
    pub fn choice(&self, total: usize, amount: usize) -> Choice
        requires { LeadsTo self.now.stage total amount }
        ensures { result ≡ choice_of self.now.stage (at self.now.costs.now) total amount }
    {
        // `as`, here and below: from usize std has no From for u64, and for narrower numbers none.
        let making = terms::making_cost(self.stage.setup, self.stage.unit, amount as u64);
        Choice {
            amount,
            price: self.costs[total - amount] + making,
        }
    }

    // Of the amounts that lead to a total, the smallest of the cheapest.
    pub fn best(&self, total: usize) -> Choice
        requires { After self.now.stage total }
        ensures { result ≡ best_of self.now.stage (at self.now.costs.now) total }
    {
        let lowest = total.saturating_sub(self.stage.high);
        let highest = self.stage.capacity.min(total - self.stage.low);
        // A loop: std's `min_by_key` answers by an Option, though there is always an amount, and asks that each one that the range gives leads to the total.
        let mut best = self.choice(total, lowest);
        for amount in lowest + 1..=highest {
            best = cheaper(best, self.choice(total, amount));
        }
        best
    }

    // What is written for a total, once its best choice is known.
    pub fn cell(&self, best: Choice, total: usize) -> Cell
        requires { Small self.now.stage best total }
        ensures { result ≡ cell_of self.now.stage best total }
    {
        let held = (total - self.stage.floor) as u64;
        Cell {
            cost: best.price + terms::holding_cost(self.stage.holding, held),
            amount: best.amount as u16,
        }
    }

    // What a total before the stage is compared by; without the setup, so that the queue's loop has one branch less.
    pub fn key(&self, before: usize) -> u64
        requires { Entry self.now.stage (self.now.stage.top + 1) before }
        ensures { result ≡ key_of self.now.stage (at self.now.costs.now) before }
    {
        self.costs[before] + u64::from(self.stage.unit) * ((self.stage.top - before) as u64)
    }
}

// The second only if it is cheaper: std's `min_by_key` for this type and key, told once in the words of specs/.
pub fn cheaper(a: Choice, b: Choice) -> Choice
    ensures { result ≡ pick (dec_lt b.price a.price) b a }
{
    min_by_key(a, b, |choice| choice.price)
}
