// The coefficients of a weighted fit at a place, from the weights of the observations seen from there.
//
// Weights, coefficients and matrices have fixed room, since there is no heap: n weights, m coefficients and m rows count.
// Weights come beside the sample and their sum: a struct of weights and sum would be made for two calls of one solve.
#![tactic(auto)]

ghost use Rattle.std.specs.Prelude.{◌≡◌, ◌≤◌, replicate};
ghost use Rattle.real.specs.Reals.{zero64};
ghost use Rattle.estimate.specs.Estimate.{coefficients_of, beside, from_inverse, elimination_of, came_to, none_of, left_by, coefficients_under, fit_coefficients, put_into};

use refusal::Refusal;
use setup::Sample;

mod inner;
mod inverse;

pub use inner::inner_product;
pub use inverse::inverse_times;

// The coefficients of a fit, intercept first, and the eliminated matrix, whose right half is the inverse.
#[derive(Clone, Copy)]
pub struct Coefficients {
    pub beta: [f64; 8],
    pub inverse: [[f64; 16]; 8],
}

impl Coefficients {
    // Zeros, to be lent to `fit_into`.
    pub fn none() -> Self
        ensures { result ≡ none_of (replicate 8 (replicate 16 zero64)) }
    {
        Coefficients {
            beta: [0.0; 8],
            inverse: [[0.0; 16]; 8],
        }
    }
}

// The coefficients: the inverse times the right-hand side.
#[tactic(auto, using(real::proofs::Fold::done), unfolding(crate::specs::Estimate::coefficient_step, crate::specs::Estimate::coefficients_of))]
fn coefficients_of(a: &[[f64; 16]; 8], rhs: [f64; 8], m: usize) -> [f64; 8]
    requires { m ≤ 8 }
    ensures { result ≡ coefficients_of a.now rhs m }
{
    let mut beta = [0.0; 8];
    // `array::from_fn` would ask of each of the 8 whether it counts.
    for (p, b) in beta[..m].iter_mut().enumerate() {
        *b = inverse::inverse_times(a, p, rhs, m);
    }
    beta
}

// The coefficients from an eliminated matrix, whose right half is the inverse.
fn from_inverse(inverse: &[[f64; 16]; 8], rhs: [f64; 8], m: usize) -> Result<[f64; 8], Refusal>
    requires { m ≤ 8 }
    ensures { beside result inverse.now ≡ from_inverse inverse.now rhs m }
{
    if !inverse::inverse_finite(inverse, m) {
        return Err(Refusal::InverseNotFinite);
    }
    let beta = coefficients_of(inverse, rhs, m);
    if !real::all_finite(&beta[..m]) {
        return Err(Refusal::CoefficientNotFinite);
    }
    Ok(beta)
}

// The coefficients of the fit under the weights w, into those that are lent.
fn under_into(sample: &Sample<'_>, w: &[f64; 512], into: &mut Coefficients) -> Result<(), Refusal>
    ensures { (result, into.new) ≡ put_into (coefficients_under sample.now.setup sample.now.columns w.now) (none_of (came_to (elimination_of sample.now.setup sample.now.columns w.now))) }
{
    let m = sample.setup().p + 1;
    let e = normal::equations_of(sample, w);
    into.beta = [0.0; 8];
    match inverse::invert_matrix(&e.a, m) {
        Ok(eliminated) => {
            into.inverse = eliminated;
            into.beta = from_inverse(&into.inverse, e.rhs, m)?;
            Ok(())
        }
        Err(so_far) => {
            into.inverse = so_far;
            Err(Refusal::Singular)
        }
    }
}

// The same under weights with this sum: 27 where that is not above zero. Into coefficients that are lent, since those in a `Result` are
// copied by each function that hands them on, and a solve of few observations takes up to 1.6 times as long by it.
#[tactic(auto, unfolding(crate::specs::Estimate::fit_coefficients, crate::specs::Estimate::left_by))]
pub fn fit_into(
    sample: &Sample<'_>,
    w: &[f64; 512],
    sum: f64,
    into: &mut Coefficients,
) -> Result<(), Refusal>
    ensures { (result, into.new) ≡ put_into (fit_coefficients sample.now.setup sample.now.columns w.now sum) (left_by sample.now.setup sample.now.columns w.now sum) }
{
    if sum > 0.0 {
        under_into(sample, w, into)
    } else {
        *into = Coefficients::none();
        Err(Refusal::WeightSumNotPositive)
    }
}

// The same, answered.
pub fn fit_coefficients(
    sample: &Sample<'_>,
    w: &[f64; 512],
    sum: f64,
) -> Result<Coefficients, Refusal>
    ensures { result ≡ fit_coefficients sample.now.setup sample.now.columns w.now sum }
{
    let mut found = Coefficients::none();
    fit_into(sample, w, sum, &mut found)?;
    Ok(found)
}
