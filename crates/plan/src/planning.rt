// What the options ask for, and what is said of an input.
// Limits of sizes, and room for rows, are clauses: docs/DECISIONS.md says why.
ghost use Rattle.std.specs.Prelude.{◌≡◌, ◌*◌, ◌≤◌, length};
ghost use Rattle.setup.specs.Shape.{Sized};
ghost use Rattle.bounds.specs.Bounds.{greatest_distance};
ghost use Rattle.plan.specs.Plan.{resolve_initial_bandwidth, distance_plan, count_plan, search_plan, plan_at, plan_options_at, accept_of};

use super::Plan;
use bounds::{greatest_count, greatest_distance, least_count, least_distance};
use input::{check_input, check_options, seeks_distance};
use refusal::Refusal;
use setup::{Columns, GwrBandwidth, GwrOptions, Setup};

// The bandwidth given, a count resolved.
#[tactic(auto, unfolding(crate::specs::Plan::resolve_initial_bandwidth))]
fn resolve_initial_bandwidth(bandwidth: GwrBandwidth, n: usize, p: usize) -> GwrBandwidth
    requires { (1 ≤ n) × (n ≤ 512) × (p ≤ 7) }
    ensures { result ≡ resolve_initial_bandwidth bandwidth n p }
{
    match bandwidth {
        GwrBandwidth::Fixed(b) => GwrBandwidth::Fixed(b),
        GwrBandwidth::AdaptiveKnn(k) => GwrBandwidth::AdaptiveKnn(counts::resolve_count(k, n, p)),
    }
}

// A search from lo to hi, or the distance lo where there is nothing between.
#[tactic(auto, unfolding(crate::specs::Plan::distance_plan))]
fn distance_plan(lo: f64, hi: f64) -> Plan
    ensures { result ≡ distance_plan lo hi }
{
    if lo >= hi {
        return Plan::Settled(GwrBandwidth::Fixed(lo));
    }
    Plan::Sought(lo, hi)
}

// The counts between which a search goes, or the least where there is nothing between.
#[tactic(auto, unfolding(crate::specs::Plan::count_plan))]
fn count_plan(n: usize, p: usize) -> Plan
    requires { (1 ≤ n) × (n ≤ 512) × (p ≤ 7) }
    ensures { result ≡ count_plan n p }
{
    let least = least_count(p);
    let greatest = greatest_count(n, p);
    if greatest <= least {
        return Plan::Settled(GwrBandwidth::AdaptiveKnn(least));
    }
    Plan::Sought(real::from_count(least), real::from_count(greatest))
}

// What a search does: of the bandwidth given only the kind counts.
#[tactic(auto, unfolding(crate::specs::Plan::search_plan))]
fn search_plan(kind: GwrBandwidth, hi: f64, n: usize, p: usize) -> Plan
    requires { (1 ≤ n) × (n ≤ 512) × (p ≤ 7) }
    ensures { result ≡ search_plan kind hi n p }
{
    match kind {
        GwrBandwidth::Fixed(_) => distance_plan(least_distance(hi, n), hi),
        GwrBandwidth::AdaptiveKnn(_) => count_plan(n, p),
    }
}

// What the options ask for, where hi is the greatest pair distance.
#[tactic(auto, unfolding(crate::specs::Plan::plan_at))]
fn plan_at(u: Setup, hi: f64) -> Plan
    requires { Sized u }
    ensures { result ≡ plan_at u hi }
{
    let options = u.options;
    let bandwidth = options.bandwidth;
    if options.optimize_bandwidth {
        return search_plan(bandwidth, hi, u.n, u.p);
    }
    Plan::Settled(resolve_initial_bandwidth(bandwidth, u.n, u.p))
}

// Refusals 11 and 12, or what the job does.
#[tactic(auto, unfolding(crate::specs::Plan::plan_options_at, checks::specs::Judge::ruled))]
fn plan_options_at(u: Setup, hi: f64) -> Result<Plan, Refusal>
    requires { Sized u }
    ensures { result ≡ plan_options_at u hi }
{
    check_options(u.options, hi)?;
    Ok(plan_at(u, hi))
}

// The same of the coordinates. The greatest pair distance is asked for only where a distance is sought.
#[tactic(auto, using(crate::proofs::Planned::options_blind))]
pub fn plan_options(coords: &[f64], u: Setup) -> Result<Plan, Refusal>
    requires lengths { length coords.now ≡ 2 * u.n }
    requires sized { Sized u }
    ensures { result ≡ plan_options_at u (greatest_distance coords.now u.n) }
{
    if seeks_distance(u.options) {
        return plan_options_at(u, greatest_distance(coords));
    }
    plan_options_at(u, 0.0)
}

// The input checks in order: what an accepted job does, or the first refusal. `out` is the output's length.
#[tactic(auto, using(crate::proofs::Planned::accept_refused, crate::proofs::Planned::accept_passed))]
pub fn accept(
    columns: &Columns<'_>,
    p: usize,
    options: GwrOptions,
    out: usize,
) -> Result<Plan, Refusal>
    ensures { result ≡ accept_of columns.now p options out }
{
    check_input(columns, p, out)?;
    let n = columns.coords.len() / 2;
    plan_options(columns.coords, Setup { options, n, p })
}
