//! The queue of candidates, by which the best amount for each total of a row is found.

ghost use Rattle.std.specs.Prelude.{◌≡◌, ◌+◌, ◌-◌, ◌≤◌, length, slice_range};
ghost use Rattle.day.specs.Sums.{at};
ghost use Rattle.full_rows.specs.Row.{best_of, After};
ghost use Rattle.full_rows.specs.Queue.{Entry, Queue, Trimmed, Outdone};

use crate::row::{Row, cheaper};
use crate::{Cell, Choice};

// The entries are the cells from `head` to `tail` of a lent part: there is no heap for a queue of its own.
// The row goes beside the queue: were it a field, each call that changes the queue would owe that it leaves the row as it was.
#[derive(Drop)]
pub struct Candidates<'a> {
    cells: &'a mut [u16],
    head: usize,
    tail: usize,
    ghost ordered: { head ≤ tail },
    ghost inside: { tail ≤ length cells.now },
}

// How many entries at the front lie below `least`.
fn below(entries: &[u16], least: usize) -> usize
    ensures { Trimmed entries.now least 0 (length entries.now) result }
{
    entries
        .iter()
        .position(|first| least <= usize::from(*first))
        .unwrap_or(entries.len())
}

// Where the entries end once those at the back that the newcomer outdoes have left.
fn end_for(row: &Row<'_>, entries: &[u16], newcomer: usize) -> usize
    requires queue { Queue row.now.stage (at row.now.costs.now) entries.now newcomer 0 (length entries.now) }
    requires entry { Entry row.now.stage (row.now.stage.top + 1) newcomer }
    ensures { Outdone row.now.stage (at row.now.costs.now) entries.now newcomer 0 (length entries.now) result }
{
    let limit = row.key(newcomer);
    // By place, which is what is sought: `rev` with `position` takes the call a fifth more time, and a closure for `rposition` asks that it is given
    // entries alone, which of items taken from the back is not known.
    for place in (0..entries.len()).rev() {
        if row.key(usize::from(entries[place])) < limit {
            return place + 1;
        }
    }
    0
}

impl<'a> Candidates<'a> {
    ghost use Rattle.full_rows.specs.Candidates.{QueueFor, WindowFor, QueueRoom, Entered, Scratch, Queued, CellFound};

    fn entries(&self) -> &[u16]
        ensures { result.now ≡ slice_range self.now.cells.now self.now.head self.now.tail }
    {
        &self.cells[self.head..self.tail]
    }

    // A total enters, if it can be reached before the stage; the entries at the back that it outdoes leave.
    pub fn enter(&mut self, row: &Row<'_>, newcomer: usize)
        requires queue { QueueFor row.now newcomer self.old }
        requires room { QueueRoom row.now newcomer self.old }
        ensures { Entered row.now newcomer self.old self.new }
    {
        if row.stage.high < newcomer {
            return;
        }
        let end = self.head + end_for(row, self.entries(), newcomer);
        self.cells[end] = newcomer as u16;
        self.tail = end + 1;
    }

    // The totals below the floor have entered.
    pub fn new(row: &Row<'_>, cells: &'a mut [u16]) -> Self
        requires { Scratch row.now.stage cells.old }
        ensures { Queued row.now row.now.stage.floor (length cells.old) result }
    {
        let stage = row.stage;
        let mut queue = Candidates {
            cells,
            head: 0,
            tail: 0,
        };
        for before in stage.low..stage.floor.min(stage.high + 1) {
            queue.enter(row, before);
        }
        queue
    }

    // Of the amounts that lead to a total, the smallest of the cheapest: none, or what the queue's head asks for.
    fn best(&self, row: &Row<'_>, total: usize) -> Choice
        requires window { WindowFor row.now total self.now }
        requires after { After row.now.stage total }
        ensures { result ≡ best_of row.now.stage (at row.now.costs.now) total }
    {
        let Some(first) = self.entries().first() else {
            return row.choice(total, 0);
        };
        let some = row.choice(total, total - usize::from(*first));
        if row.stage.high < total {
            return some;
        }
        cheaper(row.choice(total, 0), some)
    }

    // Recursion (5) for one total; the entries at the head that are out of the capacity's reach leave.
    pub fn cell(&mut self, row: &Row<'_>, total: usize) -> Cell
        requires queue { QueueFor row.now total self.old }
        requires after { After row.now.stage total }
        ensures { CellFound row.now total self.old self.new result }
    {
        let least = total.saturating_sub(row.stage.capacity);
        self.head += below(self.entries(), least);
        row.cell(self.best(row, total), total)
    }
}
