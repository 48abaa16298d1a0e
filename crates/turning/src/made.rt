// Jobs made from a pseudo-random sequence with a fixed seed.
ghost use Rattle.std.specs.Prelude.{◌≤◌};

use crate::seed::Seed;
use crate::trusts::{self, Sort};
use kernel::GwrKernel;
use setup::{GwrBandwidth, GwrCriterion, GwrOptions};

// Arrays have the room of the largest case, of which n and p say how much counts, since there is no heap.
#[derive(Drop)]
pub struct Case {
    pub n: usize,
    pub p: usize,
    pub options: GwrOptions,
    pub coords: [f64; 24],
    pub x: [f64; 36],
    pub y: [f64; 12],
    pub trust: [f64; 12],
    pub seed: Seed,
}

// A value: whole numbers 0 to 2, huge numbers, or tenths up to 100.
// By a number, since a seed draws it: an enum would be made of the number by the same match.
fn value(s: Seed, style: u64) -> f64 {
    let v = (s.draw(1000) as u32) as f64 / 10.0;
    match style {
        0 => (s.draw(3) as u32) as f64,
        1 => v * 1e160,
        2 => v * 1e-9,
        _ => v,
    }
}

// Fills s with what f makes of each place and the next seed; answers the seed after them.
pub fn fill<F: Fn(usize, Seed) -> f64>(s: &mut [f64], seed: Seed, f: F) -> Seed
    requires { F.IsAlwaysCallable f }
{
    let mut at = seed;
    for (i, v) in s.iter_mut().enumerate() {
        at = at.next();
        *v = f(i, at);
    }
    at
}

const KERNELS: [GwrKernel; 3] = [
    GwrKernel::Gaussian,
    GwrKernel::Bisquare,
    GwrKernel::Exponential,
];

// The kinds in turn, by the number of the job.
fn bandwidth_of(k: u64, seed: Seed) -> GwrBandwidth {
    if k % 2 == 0 {
        GwrBandwidth::Fixed((seed.draw(1200) as u32) as f64 / 10.0)
    } else {
        GwrBandwidth::AdaptiveKnn(seed.draw(14) as usize)
    }
}

// Case k: every kernel and kind in turn, sizes and values from the seed, and trusts of this sort. These are drawn from a seed of
// their own, so that the case is otherwise the same whatever its sort.
pub fn make_case(seed: Seed, k: u64, criterion: GwrCriterion, sort: Sort) -> Case
    ensures { (result.n ≤ 10) × (result.p ≤ 2) }
{
    let mut coords = [0.0; 24];
    let mut x = [0.0; 36];
    let mut y = [0.0; 12];
    let mut trust = [0.0; 12];
    let options = GwrOptions {
        kernel: KERNELS[(k % 3) as usize],
        bandwidth: bandwidth_of(k / 3, seed),
        optimize_bandwidth: k / 6 % 2 == 1,
        criterion,
    };
    let a = seed.next();
    let b = fill(&mut coords, a, |_, s| value(s, a.draw(8)));
    let c = fill(&mut x, b, |_, s| value(s, b.draw(8)));
    let d = fill(&mut y, c, |_, s| value(s, c.draw(8)));
    let n = d.draw(10) + 1;
    let half = d.half();
    trusts::fill_trusts(&mut trust, sort, half.draw(n) as usize, half);
    Case {
        n: n as usize,
        p: d.next().draw(3) as usize,
        options,
        coords,
        x,
        y,
        trust,
        seed: d,
    }
}
