// Between which bandwidths a search goes: 000's `fixed_bandwidth_bounds`, and the counts.
// Limits of sizes, and room for rows, are clauses: docs/DECISIONS.md says why.
#![tactic(auto)]

ghost use Rattle.std.specs.Prelude.{◌≡◌, ◌/◌, ◌≤◌, length};
ghost use Rattle.setup.specs.Shape.{Sized};
ghost use Rattle.bounds.specs.Bounds.{greatest_distance, least_distance, usable_distance, least_count, greatest_count, bandwidth_at};

use kernel::Place;
use setup::{GwrBandwidth, Setup};

// The greatest distance between two pantries, 0 where there is no pair.
pub fn greatest_distance(coords: &[f64]) -> f64
    requires { length coords.now ≤ 1024 }
    ensures { result ≡ greatest_distance coords.now (length coords.now / 2) }
{
    let n = coords.len() / 2;
    let mut most = 0.0;
    // By numbers: pairs i < j. Chunks of two would each have to be made a `Place`, so they are no plainer.
    for i in 0..n {
        let here = Place::at(coords, i);
        for j in i + 1..n {
            most = real::max(most, here.distance(Place::at(coords, j)));
        }
    }
    most
}

// The least distance that a search tries, where hi is the greatest.
#[tactic(auto, unfolding(crate::specs::Bounds::least_distance))]
pub fn least_distance(hi: f64, n: usize) -> f64
    requires { n ≤ 512 }
    ensures { result ≡ least_distance hi n }
{
    let part = hi / real::from_count(n);
    real::min(real::max(part, hi * 0.001), hi)
}

// Whether a distance can be a bandwidth: it is finite and above zero.
#[tactic(auto, using(real::proofs::Std::finite_same), unfolding(crate::specs::Bounds::usable_distance))]
pub fn usable_distance(b: f64) -> bool
    ensures { result ≡ usable_distance b }
{
    b.is_finite() && b > 0.0
}

// The least count that a search tries: max(p + 1, 2).
pub fn least_count(p: usize) -> usize
    requires { p ≤ 7 }
    ensures { result ≡ least_count p }
{
    (p + 1).max(2)
}

// The greatest count that a search tries: max(n - 1, L).
pub fn greatest_count(n: usize, p: usize) -> usize
    requires { (1 ≤ n) × (n ≤ 512) × (p ≤ 7) }
    ensures { result ≡ greatest_count n p }
{
    (n - 1).max(least_count(p))
}

// The bandwidth at a point of the search, of the options' kind.
#[tactic(auto, unfolding(crate::specs::Bounds::bandwidth_at, crate::specs::Bounds::point_of))]
pub fn bandwidth_at(u: Setup, point: f64) -> GwrBandwidth
    requires { Sized u }
    ensures { result ≡ bandwidth_at u point }
{
    match u.options.bandwidth {
        GwrBandwidth::Fixed(_) => GwrBandwidth::Fixed(point),
        GwrBandwidth::AdaptiveKnn(_) => {
            let least = least_count(u.p);
            let greatest = greatest_count(u.n, u.p);
            GwrBandwidth::AdaptiveKnn(real::round_into(point, least, greatest))
        }
    }
}
