//! A big day made ready for its trials.
ghost use Rattle.day.specs.Lent.{lent_day};
ghost use Rattle.drops.specs.Ready.{IsReady};

use day::Day;

// Beside the day its net needs, and for each period a key by which the greedy rule chooses.
#[derive(Clone, Copy)]
pub struct Ready<'a> {
    pub day: Day<'a>,
    pub net: &'a [u16],
    pub keys: &'a [u64],
    pub ghost ready: { IsReady (lent_day day) net.now keys.now },
}
