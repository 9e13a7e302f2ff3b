//! A day as a call is lent it.
ghost use Rattle.day.specs.Widths.{Widths};

use crate::Ends;

// Its tables, with one entry a period, as six slices, since C lends them so; and its ends. In the operators' words: need r, capacity c,
// start cost b, unit cost p, upkeep h, store limit s.
#[derive(Clone, Copy)]
pub struct Day<'a> {
    pub demand: &'a [u16],
    pub capacity: &'a [u16],
    pub setup: &'a [u32],
    pub unit: &'a [u32],
    pub holding: &'a [u32],
    pub store: &'a [u16],
    pub ends: Ends,
    ghost widths: { Widths demand.now capacity.now setup.now unit.now holding.now store.now },
}
