//! How a plan loads the cell: its full-load periods and its part-loaded ones, counted.
#![tactic(auto)]

ghost use Rattle.std.specs.Prelude.{◌≡◌, ◌&&◌, ◌≤◌, ltb, length};
ghost use Rattle.day.specs.Sums.{at, Term};
ghost use Rattle.day.specs.Loads.{one_if, loads_through};

use day::Loads;

// 1 for a period that makes something that fits.
fn load(made: u16, fits: bool) -> u64
    ensures { Term (one_if (ltb 0 made && fits)) 1 result }
{
    u64::from(0 < made && fits)
}

// How many periods of a plan make their capacity, and how many something less; amounts past the capacities are not read.
pub fn count(capacity: &[u16], plan: &[u16]) -> Loads
    requires { length capacity.now ≤ length plan.now }
    ensures { result ≡ loads_through (at capacity.now) (at plan.now) (length capacity.now) }
{
    let mut full = 0;
    let mut part = 0;
    for (&most, &made) in capacity.iter().zip(plan) {
        full += load(made, made == most);
        part += load(made, made < most);
    }
    Loads { full, part }
}
