// The input checks in document 01's order: lists of tests, each read from its top, so that a further refusal is one line.
// Limits of sizes, and room for rows, are clauses: docs/DECISIONS.md says why.
#![tactic(auto)]

ghost use Rattle.std.specs.Prelude.{◌≡◌, ◌&&◌, ◌*◌, ◌≤◌, length};
ghost use Rattle.std.specs.Float.Ieee.Scale.{finite};
ghost use Rattle.real.specs.Finite.{all_finite, in_unit, all_in_unit};
ghost use Rattle.setup.specs.Data.{trust_count};
ghost use Rattle.setup.specs.Shape.{Sized};
ghost use Rattle.checks.specs.Judge.{judge};
ghost use Rattle.input.specs.Checks.{trusts_fit, shape_tests, value_tests, output_tests, room_tests, input_tests, lengths_fit, unusable_given, seeks_distance, nothing_between, option_tests_at};

use bounds::usable_distance;
use real::{all_finite, all_in_unit};
use refusal::Refusal;
use setup::{Columns, GwrBandwidth, GwrOptions, Setup};

// Refusals 1 to 7. The lengths one by one: a struct of them would be made for this one call.
#[tactic(auto, unfolding(crate::specs::Checks::shape_tests, checks::specs::Judge::judge))]
fn check_shape(coords: usize, x: usize, y: usize, trusts: usize, p: usize) -> Result<(), Refusal>
    ensures { result ≡ judge (shape_tests coords x y trusts p) }
{
    if coords == 0 {
        return Err(Refusal::NoCoordinates);
    }
    if coords % 2 == 1 {
        return Err(Refusal::OddCoordinates);
    }
    let n = coords / 2;
    if 512 < n {
        return Err(Refusal::TooManyObservations);
    }
    if 7 < p {
        return Err(Refusal::TooManyPredictors);
    }
    if x != n * p {
        return Err(Refusal::PredictorLength);
    }
    if y != n {
        return Err(Refusal::ResponseLength);
    }
    if trusts != n {
        return Err(Refusal::ResponseLength);
    }
    if n < p + 1 {
        return Err(Refusal::TooFewObservations);
    }
    Ok(())
}

// Refusals 8 to 10, a response, coordinate or predictor that is not finite, and 26, a trust that is not in 0..1.
#[tactic(auto, unfolding(crate::specs::Checks::value_tests, checks::specs::Judge::judge))]
pub fn check_values(columns: &Columns<'_>) -> Result<(), Refusal>
    ensures { result ≡ judge (value_tests columns.now) }
{
    if !all_finite(columns.responses) {
        return Err(Refusal::ResponseNotFinite);
    }
    if !all_finite(columns.coords) {
        return Err(Refusal::CoordinateNotFinite);
    }
    if !all_finite(columns.predictors) {
        return Err(Refusal::PredictorNotFinite);
    }
    if !all_in_unit(columns.trusts) {
        return Err(Refusal::TrustOutOfRange);
    }
    Ok(())
}

// Whether an observation's numbers are finite and its trust lies from 0 to 1. v - v is zero, or NaN where v is not finite; zero times a
// number that is not finite is NaN; and no comparison with NaN holds. Easting and northing one by one: no place is made of what is
// only multiplied.
#[tactic(auto, using(crate::proofs::Observations::good_is))]
fn observation_good(v: f64, east: f64, north: f64, trust: f64) -> bool
    ensures { result ≡ (finite v && finite east && finite north && in_unit trust) }
{
    let z = (v - v) * east * north;
    (z <= trust) & (trust <= 1.0)
}

// Whether all observations are good. Slices one by one: `Columns` is known to a contract as a `Data`, which may have no trusts.
fn observations_good(coords: &[f64], y: &[f64], trust: &[f64]) -> bool
    requires { (length coords.now ≡ 2 * length y.now) × (length trust.now ≡ length y.now) }
    ensures { result ≡ (all_finite y.now && all_finite coords.now && all_in_unit trust.now) }
{
    let (places, _) = coords.as_chunks::<2>();
    let mut good = true;
    for ((place, v), t) in places.iter().zip(y).zip(trust) {
        let here = observation_good(*v, place[0], place[1], *t);
        good &= here;
    }
    good
}

// Whether none of these refusals is met, in one walk that does not ask which.
pub fn values_good(columns: &Columns<'_>) -> bool
    requires { (length columns.now.coords ≡ 2 * length columns.now.responses) × (trust_count columns.now ≡ length columns.now.responses) }
    ensures { result ≡ (all_finite columns.now.responses && all_finite columns.now.coords && trusts_fit columns.now.trusts && all_finite columns.now.predictors) }
{
    let here = observations_good(columns.coords, columns.responses, columns.trusts);
    here & all_finite(columns.predictors)
}

// Refusal 13: an output with no room for n rows.
#[tactic(auto, unfolding(crate::specs::Checks::output_tests, checks::specs::Judge::judge))]
fn check_output(n: usize, p: usize, out: usize) -> Result<(), Refusal>
    requires { (n ≤ 512) × (p ≤ 7) }
    ensures { result ≡ judge (output_tests n p out) }
{
    if out < n * (p + 4) {
        return Err(Refusal::OutputTooShort);
    }
    Ok(())
}

// Refusal 13 of a job of known sizes.
pub fn check_room(u: Setup, out: usize) -> Result<(), Refusal>
    requires { Sized u }
    ensures { result ≡ judge (room_tests u out) }
{
    check_output(u.n, u.p, out)
}

// Refusals 1 to 7, 8 to 10, 26 and 13. `out` is the output's length.
#[tactic(auto, using(checks::proofs::Judge::judge_append, crate::proofs::Accepted::shape_counts), unfolding(crate::specs::Checks::input_tests, checks::specs::Judge::ruled))]
pub fn check_input(columns: &Columns<'_>, p: usize, out: usize) -> Result<(), Refusal>
    ensures { result ≡ judge (input_tests columns.now p out) }
{
    check_shape(
        columns.coords.len(),
        columns.predictors.len(),
        columns.responses.len(),
        columns.trusts.len(),
        p,
    )?;
    check_values(columns)?;
    check_output(columns.coords.len() / 2, p, out)
}

// Whether the slices have the lengths that the job's sizes say.
#[tactic(auto, unfolding(crate::specs::Checks::lengths_fit))]
pub fn lengths_fit(columns: &Columns<'_>, u: Setup) -> bool
    requires { Sized u }
    ensures { result ≡ lengths_fit u columns.now }
{
    columns.coords.len() == 2 * u.n
        && columns.predictors.len() == u.n * u.p
        && columns.responses.len() == u.n
        && columns.trusts.len() == u.n
}

// Whether a distance is given that cannot be used.
#[tactic(auto, unfolding(crate::specs::Checks::unusable_given))]
fn unusable_given(options: GwrOptions) -> bool
    ensures { result ≡ unusable_given options.optimize_bandwidth options.bandwidth }
{
    if options.optimize_bandwidth {
        return false;
    }
    match options.bandwidth {
        GwrBandwidth::Fixed(b) => !usable_distance(b),
        GwrBandwidth::AdaptiveKnn(_) => false,
    }
}

// Whether a distance is sought.
#[tactic(auto, unfolding(crate::specs::Checks::seeks_distance))]
pub fn seeks_distance(options: GwrOptions) -> bool
    ensures { result ≡ seeks_distance options.optimize_bandwidth options.bandwidth }
{
    options.optimize_bandwidth && matches!(options.bandwidth, GwrBandwidth::Fixed(_))
}

// Whether a distance is sought and there is none to seek.
#[tactic(auto, unfolding(crate::specs::Checks::nothing_between))]
fn nothing_between(options: GwrOptions, hi: f64) -> bool
    ensures { result ≡ nothing_between options.optimize_bandwidth options.bandwidth hi }
{
    seeks_distance(options) && !usable_distance(hi)
}

// Refusals 11 and 12, where hi is the greatest pair distance.
#[tactic(auto, unfolding(crate::specs::Checks::option_tests_at, checks::specs::Judge::judge))]
pub fn check_options(options: GwrOptions, hi: f64) -> Result<(), Refusal>
    ensures { result ≡ judge (option_tests_at options hi) }
{
    if unusable_given(options) {
        return Err(Refusal::UnusableDistance);
    }
    if nothing_between(options, hi) {
        return Err(Refusal::NoDistanceRange);
    }
    Ok(())
}
