// Which records are fit: refusal 19 is the negation.
#![tactic(auto)]

ghost use Rattle.std.specs.Prelude.{◌≡◌, ◌&&◌, ◌≤◌, ◌<◌, leb};
ghost use Rattle.setup.specs.Shape.{Sized};
ghost use Rattle.fitness.specs.Fitness.{sizes_fit, kinds_fit, trials_fit, solves_fit, is_fit};

use setup::{GwrBandwidth, Setup};
use stepping::{Job, Stage};

// Whether sizes and location are within the limits.
#[tactic(auto, unfolding(crate::specs::Fitness::sizes_fit))]
fn sizes_fit(u: Setup, location: usize) -> bool
    ensures { result ≡ sizes_fit u location }
{
    u.n <= 512 && u.p <= 7 && u.p + 1 <= u.n && location < u.n
}

// Whether the bandwidth is of the kind given, a count being in 1..512.
#[tactic(auto, unfolding(crate::specs::Fitness::kinds_fit))]
fn kinds_fit(kind: GwrBandwidth, bandwidth: GwrBandwidth) -> bool
    ensures { result ≡ kinds_fit kind bandwidth }
{
    match (kind, bandwidth) {
        (GwrBandwidth::Fixed(_), GwrBandwidth::Fixed(_)) => true,
        (GwrBandwidth::AdaptiveKnn(_), GwrBandwidth::AdaptiveKnn(k)) => 1 <= k && k <= 512,
        _ => false,
    }
}

// Whether so many trials can have been made in a round.
fn in_rounds(made: usize) -> bool
    ensures { result ≡ (leb 2 made && leb made 101) }
{
    2 <= made && made <= 101
}

// Whether so many trials can have been made at this stage.
#[tactic(auto, unfolding(crate::specs::Fitness::trials_fit))]
fn trials_fit(stage: Stage, made: usize) -> bool
    ensures { result ≡ trials_fit stage made }
{
    match stage {
        Stage::First => made == 0,
        Stage::Second => made == 1,
        Stage::Round => in_rounds(made),
        Stage::Final => made <= 102,
        Stage::Ended(_) => made <= 102,
    }
}

// Whether so many solves can have been made: at most n for each trial, and those of the sweep under way.
#[tactic(auto, using(stepping::proofs::Sounds::most_solves, crate::proofs::Fits::ended_few), unfolding(crate::specs::Fitness::solves_fit))]
fn solves_fit(j: Job) -> bool
    requires sized { Sized j.setup }
    requires in_range { (j.sweep.location < j.setup.n) × (j.trials.made ≤ 102) }
    ensures { result ≡ solves_fit j }
{
    let most = (j.trials.made * j.setup.n + j.sweep.location) as u64 + j.stage.ended_solve();
    j.solves <= most
}

// Whether a record is fit.
#[tactic(auto, using(crate::proofs::Fits::sizes_means, crate::proofs::Fits::trials_fit_few), unfolding(crate::specs::Fitness::is_fit))]
pub fn is_fit(j: Job) -> bool
    ensures { result ≡ is_fit j }
{
    if !sizes_fit(j.setup, j.sweep.location) {
        return false;
    }
    if !kinds_fit(j.setup.options.bandwidth, j.bandwidth) {
        return false;
    }
    if !trials_fit(j.stage, j.trials.made) {
        return false;
    }
    solves_fit(j)
}
