//! Lent cells, every one of which holds the mark before a call.
ghost use Rattle.std.specs.Prelude.{◌≡◌, IfOk, replicate};

use crate::show::{Kept, Refused};
use day::{Refusal, Sizes};
use std::alloc::{AllocError, Global};
use std::io;

// The mark.
pub const MARK: u8 = 119;

// Whether every cell holds it.
pub fn marked<T: Copy + Into<u64>>(cells: &[T]) -> bool {
    cells.iter().all(|cell| (*cell).into() == u64::from(MARK))
}

// Whether an area is cleared in its first n cells, and holds the mark in the later ones.
fn cleared<T: Copy + Into<u64>>(cells: &[T], n: usize) -> bool {
    let (first, later) = cells.split_at(n.min(cells.len()));
    first.iter().all(|cell| (*cell).into() == 0) && marked(later)
}

// What a call showed: its answer, or why it was refused; and whether it left every lent cell as it must.
#[derive(Clone, Copy)]
pub struct Outcome<T> {
    pub answer: Result<T, Refusal>,
    pub kept: bool,
}

impl<T: Copy> Outcome<T> {
    // Ends a line: with the refusal, or with what `answered` prints of the answer; and then whether the cells were kept.
    pub fn print<R: Print, F: FnOnce(T) -> io::Result<()>>(
        self,
        rt: &R,
        answered: F,
    ) -> io::Result<()>
        requires { F.IsAlwaysCallable answered }
    {
        match self.answer {
            Err(refusal) => print!(rt; "{}", Refused(refusal))?,
            Ok(answer) => answered(answer)?,
        }
        println!(rt; "{}", Kept(self.kept))
    }
}

// Whether memory is as a refused call must leave it: every cell and slot holds the mark.
fn is_marked(costs: &[u64], choices: &[u16], slots: &[u16]) -> bool {
    marked(costs) && marked(choices) && marked(slots)
}

// Whether memory is as a call must leave it that needs so much for its answer: the needed cells hold zero; the later ones, and the slots after the
// plan, hold the mark.
fn is_cleared(costs: &[u64], choices: &[u16], slots: &[u16], needed: Sizes) -> bool {
    cleared(costs, needed.costs)
        && cleared(choices, needed.choices)
        && marked(slots.get(needed.slots..).unwrap_or(&[]))
}

impl<T> Outcome<T> {
    // What a call showed that answered so, needs so much for its answer, and left memory so.
    fn of(
        answer: Result<T, Refusal>,
        needed: Sizes,
        costs: &[u64],
        choices: &[u16],
        slots: &[u16],
    ) -> Outcome<T> {
        let kept = match answer {
            Ok(_) => is_cleared(costs, choices, slots, needed),
            Err(_) => is_marked(costs, choices, slots),
        };
        Outcome { answer, kept }
    }
}

// The plan of n periods in slots that hold one.
fn plan_in(slots: &[u16], n: usize) -> &[u16] {
    slots.get(..n).unwrap_or(&[])
}

// Memory of its own that a caller with a heap lends to a call. The trials have none: they lend `LentMemory`.
#[derive(Drop)]
pub struct Memory {
    pub costs: Vec<u64>,
    pub choices: Vec<u16>,
    pub slots: Vec<u16>,
}

impl Memory {
    // Every cell and slot holds the mark.
    pub fn new(alloc: Global, sizes: Sizes) -> Result<Memory, AllocError>
        ensures costs { IfOk result (λ memory. memory.costs.items ≡ replicate sizes.costs 119) }
        ensures choices { IfOk result (λ memory. memory.choices.items ≡ replicate sizes.choices 119) }
        ensures slots { IfOk result (λ memory. memory.slots.items ≡ replicate sizes.slots 119) }
    {
        Ok(Memory {
            costs: vec![in alloc; MARK.into(); sizes.costs]?,
            choices: vec![in alloc; MARK.into(); sizes.choices]?,
            slots: vec![in alloc; MARK.into(); sizes.slots]?,
        })
    }

    // All of it, as the trials lend theirs.
    pub fn lent(&mut self) -> LentMemory<'_>
        ensures costs { result.costs.now ≡ self.old.costs.items }
        ensures choices { result.choices.now ≡ self.old.choices.items }
        ensures slots { result.slots.now ≡ self.old.slots.items }
    {
        LentMemory {
            costs: self.costs.as_mut_slice(),
            choices: self.choices.as_mut_slice(),
            slots: self.slots.as_mut_slice(),
        }
    }

    // What a call showed that answered so, and needs so much for its answer.
    pub fn outcome<T>(&self, answer: Result<T, Refusal>, needed: Sizes) -> Outcome<T> {
        let choices = self.choices.as_slice();
        Outcome::of(
            answer,
            needed,
            self.costs.as_slice(),
            choices,
            self.slots.as_slice(),
        )
    }

    // The plan of n periods in the slots.
    pub fn plan(&self, n: usize) -> &[u16] {
        plan_in(self.slots.as_slice(), n)
    }
}

// Memory that is lent to a call: the front of areas that lie where it is called, as those of a caller without a heap do.
#[derive(Drop)]
pub struct LentMemory<'a> {
    pub costs: &'a mut [u64],
    pub choices: &'a mut [u16],
    pub slots: &'a mut [u16],
}

// The first n cells of an area, all where it has fewer.
fn front<T>(area: &mut [T], n: usize) -> &mut [T] {
    let n = n.min(area.len());
    &mut area[..n]
}

impl<'a> LentMemory<'a> {
    // So much of each of these areas, all of it where that is more; every cell and slot of them is to hold the mark.
    pub fn new(
        sizes: Sizes,
        costs: &'a mut [u64],
        choices: &'a mut [u16],
        slots: &'a mut [u16],
    ) -> LentMemory<'a> {
        LentMemory {
            costs: front(costs, sizes.costs),
            choices: front(choices, sizes.choices),
            slots: front(slots, sizes.slots),
        }
    }

    // What a call on it showed, as of `Memory`.
    pub fn outcome<T>(&self, answer: Result<T, Refusal>, needed: Sizes) -> Outcome<T> {
        Outcome::of(answer, needed, self.costs, self.choices, self.slots)
    }

    // The plan of n periods in its slots.
    pub fn plan(&self, n: usize) -> &[u16] {
        plan_in(self.slots, n)
    }
}
