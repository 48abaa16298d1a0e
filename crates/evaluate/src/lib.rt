// What a fit says of the location that it was made for: prediction, residual, local R² and leverage.
//
// Weights, coefficients and matrices have fixed room, since there is no heap: n weights, m coefficients and m rows count.
// Weights come beside the sample and their sum: a struct of weights and sum would be made for two calls of one solve.
#![tactic(auto)]

ghost use Rattle.std.specs.Prelude.{◌≡◌, ◌+◌, ◌≤◌, ◌<◌, length};
ghost use Rattle.normal.specs.Design.{design_of};
ghost use Rattle.evaluate.specs.Evaluate.{inner_product, hat_diagonal, add_squares, sum_squares, explained_share, local_r_squared, values_at};

use estimate::Coefficients;
use setup::Sample;

// What a local solve gives beside the coefficients.
#[derive(Clone, Copy)]
pub struct Values {
    pub predicted: f64,
    pub residual: f64,
    pub local_r2: f64,
    pub leverage: f64,
}

// The weighted sums of squares about the mean and about the fit.
#[derive(Clone, Copy)]
pub struct Squares {
    pub total: f64,
    pub residual: f64,
}

// The fitted value of an observation: the coefficients times its design row, read where its predictors stand.
#[tactic(auto, using(crate::proofs::Sums::fitted_is))]
fn fitted(beta: &[f64; 8], own: &[f64]) -> f64
    requires { length own.now ≤ 7 }
    ensures { result ≡ inner_product beta.now (design_of own.now) (length own.now + 1) }
{
    estimate::inner_product(0.0 + beta[0] * 1.0, &beta[1..own.len() + 1], own)
}

// The i-th diagonal element of the hat matrix, from the location's design row and own weight.
#[tactic(auto, using(real::proofs::Fold::none, real::proofs::Fold::done), unfolding(crate::specs::Evaluate::quad_step, crate::specs::Evaluate::hat_diagonal))]
fn hat_diagonal(inverse: &[[f64; 16]; 8], row: [f64; 8], own: f64, m: usize) -> f64
    requires { m ≤ 8 }
    ensures { result ≡ hat_diagonal inverse.now row own m }
{
    let mut quad = 0.0;
    // An index (tried: each inner product copies the design row, which the checker does not cover while a loop has its cells lent).
    for p in 0..m {
        quad += row[p] * estimate::inverse_times(inverse, p, row, m);
    }
    own * quad
}

// One observation's part in both sums of squares.
fn add_squares(s: Squares, w: f64, y: f64, mean: f64, fitted: f64) -> Squares
    ensures { result ≡ add_squares s w y mean fitted }
{
    let dy = y - mean;
    let dr = y - fitted;
    Squares {
        total: s.total + (w * dy) * dy,
        residual: s.residual + (w * dr) * dr,
    }
}

// Both sums of squares over observations in order, leaving out weight 0.
#[tactic(auto, using(real::proofs::Fold::none, normal::proofs::DesignCells::own_within, crate::proofs::Sums::fitted_at, real::proofs::Fold::done), unfolding(crate::specs::Evaluate::squares_step, crate::specs::Evaluate::sum_squares))]
fn sum_squares(sample: &Sample<'_>, w: &[f64; 512], beta: [f64; 8], mean: f64) -> Squares
    ensures { result ≡ sum_squares sample.now.setup sample.now.columns w.now beta mean }
{
    let mut s = Squares {
        total: 0.0,
        residual: 0.0,
    };
    let u = sample.setup();
    let x = sample.predictors();
    let y = sample.responses();
    // An index: with no predictors (p = 0) `chunks_exact(p)` would panic, so they are found by j; weights and responses zipped and
    // numbered beside that would be no plainer.
    for j in 0..u.n {
        if w[j] == 0.0 {
            continue;
        }
        let own = normal::predictors_of(x, u.p, j);
        s = add_squares(s, w[j], y[j], mean, fitted(&beta, own));
    }
    s
}

// The share of the weighted variation that the fit explains.
#[tactic(auto, unfolding(crate::specs::Evaluate::explained_share))]
fn explained_share(s: Squares) -> f64
    ensures { result ≡ explained_share s }
{
    if s.total <= f64::EPSILON {
        1.0
    } else {
        real::clamp_unit(1.0 - s.residual / s.total)
    }
}

// 000's `local_r_squared`, of a fit with these coefficients under weights with this sum.
#[tactic(auto, using(crate::proofs::Sums::weighted_is), unfolding(crate::specs::Evaluate::local_r_squared))]
fn local_r_squared(sample: &Sample<'_>, w: &[f64; 512], beta: [f64; 8], sum: f64) -> f64
    ensures { result ≡ local_r_squared sample.now.setup sample.now.columns w.now beta sum }
{
    let n = sample.setup().n;
    let mean = estimate::inner_product(0.0, &w[..n], sample.responses()) / sum;
    explained_share(sum_squares(sample, w, beta, mean))
}

// What the fit with these coefficients says of location i.
#[tactic(auto, using(normal::proofs::DesignCells::own_within))]
pub fn values_at(
    sample: &Sample<'_>,
    w: &[f64; 512],
    i: usize,
    fit: &Coefficients,
    sum: f64,
) -> Values
    requires { i < sample.now.setup.n }
    ensures { result ≡ values_at sample.now.setup sample.now.columns w.now i fit.now.inverse fit.now.beta sum }
{
    let u = sample.setup();
    let x = sample.predictors();
    let y = sample.responses();
    let row = normal::design_row(x, u.p, i);
    let predicted = fitted(&fit.beta, normal::predictors_of(x, u.p, i));
    Values {
        predicted,
        residual: y[i] - predicted,
        local_r2: local_r_squared(sample, w, fit.beta, sum),
        leverage: hat_diagonal(&fit.inverse, row, w[i], u.p + 1),
    }
}
