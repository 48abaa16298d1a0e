// One location solved: weights, coefficients, and what they say there.
#![tactic(auto)]

use evaluate::Values;

mod solve;

pub use solve::solve_location;

// A location solved: the coefficients, intercept first, and what they say there.
#[derive(Clone, Copy)]
pub struct Solved {
    pub values: Values,
    pub beta: [f64; 8],
}
