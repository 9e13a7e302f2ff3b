// The plan, read back from the choices into the answer slots, lot by lot from the end.
ghost use Rattle.uncapped.specs.Slots.{LotReady, LotPut, ReadBackReady, ReadBack};

// One lot: all that is demanded from index `from` to `last` is made at `from`, and nothing after it.
fn put_lot(demand: &[u16], slots: &mut [u16], from: usize, last: usize)
    requires { LotReady demand.now slots.old from last }
    ensures { LotPut demand.now from last slots.old slots.new }
{
    slots[from] = demand[from..=last].iter().sum();
    slots[from + 1..=last].fill(0);
}

// The plan of all periods, from the choices of its rows.
pub fn read_back(demand: &[u16], choices: &[u16], slots: &mut [u16])
    requires { ReadBackReady demand.now choices.now slots.old }
    ensures { ReadBack demand.now choices.now slots.old slots.new }
{
    let mut m = demand.len();
    // Not over a range: each row's choice says where the next one ends.
    while 0 < m {
        let from = usize::from(choices[m]);
        put_lot(demand, slots, from, m - 1);
        m = from;
    }
}
