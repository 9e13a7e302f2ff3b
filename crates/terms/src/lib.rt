//! The terms of sum (1): what making an amount costs, what holding a charge costs, whether a setup is paid.
#![tactic(auto)]

ghost use Rattle.std.specs.Prelude.{◌*◌, ◌^◌, ◌<◌};
ghost use Rattle.day.specs.Sums.{Term};
ghost use Rattle.day.specs.Plan.{making, setup_at};

// What making an amount costs (report: p_i).
pub fn making_cost(setup: u32, unit: u32, amount: u64) -> u64
    requires { amount < 2 ^ 24 }
    ensures { Term (making setup unit amount) (2 ^ 57) result }
{
    if amount == 0 {
        return 0;
    }
    u64::from(setup) + u64::from(unit) * amount
}

// What holding a charge costs at a rate (report: h_i; operators say: upkeep).
pub fn holding_cost(rate: u32, charge: u64) -> u64
    requires { charge < 2 ^ 24 }
    ensures { Term (rate * charge) (2 ^ 56) result }
{
    u64::from(rate) * charge
}

// 1 where something is made.
pub fn setup_of(amount: u16) -> u64
    ensures { Term (setup_at amount) 1 result }
{
    u64::from(amount != 0)
}
