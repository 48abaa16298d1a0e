// The corrected Akaike information criterion.
#![tactic(auto)]

ghost use Rattle.std.specs.Prelude.{◌≡◌, ◌^◌, ◌<◌};
ghost use Rattle.real.specs.Arithmetic.{rounded};
ghost use Rattle.elementary.specs.Ln.{lnv};
ghost use Rattle.criterion.specs.Published.{freedom, aicc_formula};
ghost use Rattle.criterion.specs.Aicc.{pi64, corrected_aic, criterion_of, exhausted, floored, score_of, failed_summary};

use refusal::Refusal;
use setup::{GwrCriterion, Setup};
use std::f64::consts::PI;

// What a fit reports beside its rows.
#[derive(Clone, Copy)]
pub struct Summary {
    pub bandwidth: f64,
    pub aicc: f64,
    pub solves: u64,
}

impl Summary {
    // Of a fit that a refusal ended: zeros but for the solve count.
    pub fn failed(solves: u64) -> Self
        ensures { result ≡ failed_summary solves }
    {
        Summary {
            bandwidth: 0.0,
            aicc: 0.0,
            solves,
        }
    }
}

// A trial's score: its AICc, or plus infinity where that is refused or not finite.
#[tactic(auto, using(real::proofs::Std::infinity_same), unfolding(crate::specs::Aicc::score_of))]
pub fn score_of(ending: Result<f64, Refusal>) -> f64
    ensures { result ≡ score_of ending }
{
    match ending {
        Ok(aicc) if real::is_finite(aicc) => aicc,
        _ => f64::INFINITY,
    }
}

// AICc of n observations from the sum of squared residuals and the trace of the hat matrix.
#[tactic(auto, unfolding(crate::specs::Aicc::corrected_aic, crate::specs::Published::deviation))]
pub fn corrected_aic(u: Setup, rss: f64, trace: f64) -> Result<f64, Refusal>
    requires { u.n < 2 ^ 32 }
    ensures { result ≡ corrected_aic u rss trace }
{
    let nf = real::from_count(u.n);
    let sigma = root::sqrt(rss / nf);
    if real::is_finite(sigma) {
        return Ok(criterion_of(u.options.criterion, nf, sigma, trace));
    }
    Err(Refusal::DeviationNotFinite)
}

// AICc of n observations from the root of mean square and the trace: plus infinity where no degree of freedom is left.
#[tactic(auto, using(real::proofs::Std::infinity_same), unfolding(crate::specs::Aicc::criterion_of, crate::specs::Published::freedom))]
fn criterion_of(criterion: GwrCriterion, nf: f64, sigma: f64, trace: f64) -> f64
    ensures { result ≡ criterion_of criterion nf sigma trace }
{
    let d = (nf - 2.0) - trace;
    if is_exhausted(criterion, d) {
        return f64::INFINITY;
    }
    aicc_formula(nf, floored(sigma), trace, d)
}

// Whether the degrees of freedom are within 2^-52 of none. A negative number of them counts as none only where guarded; NaN
// never does.
#[tactic(auto, unfolding(crate::specs::Aicc::exhausted))]
fn is_exhausted(criterion: GwrCriterion, d: f64) -> bool
    ensures { result ≡ exhausted criterion d }
{
    match criterion {
        GwrCriterion::Unguarded => real::abs(d) <= f64::EPSILON,
        GwrCriterion::Guarded => d <= f64::EPSILON,
    }
}

// A perfect fit's deviation of zero counts as the least normal number.
#[tactic(auto, unfolding(crate::specs::Aicc::floored))]
fn floored(sigma: f64) -> f64
    ensures { result ≡ floored sigma }
{
    if sigma <= 0.0 {
        f64::MIN_POSITIVE
    } else {
        sigma
    }
}

// The criterion's three terms, added in 000's order.
#[tactic(auto, unfolding(crate::specs::Published::aicc_formula))]
fn aicc_formula(nf: f64, sigma: f64, trace: f64, d: f64) -> f64
    requires { d ≡ freedom rounded nf trace }
    ensures { result ≡ aicc_formula rounded pi64 lnv nf sigma trace }
{
    let fit = (2.0 * nf) * elementary::ln(sigma);
    let constant = nf * elementary::ln(2.0 * PI);
    (fit + constant) + (nf * (nf + trace)) / d
}
