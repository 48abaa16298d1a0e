// Trusts of observations, by sorts.
use crate::made;
use crate::seed::Seed;

// How a trust is made from a seed.
#[derive(Clone, Copy)]
enum Trust {
    Given(f64),
    // A number from 0 to 1, in tenths.
    Tenths,
    Tiny,
    Smallest,
    Outside,
    // 1 as often as not.
    OneOrTiny,
    OneOrSmallest,
}

// From 1e-300 to 1e-10, half of them near the least pivot, 1e-12.
const TINY: [f64; 6] = [1e-300, 1e-160, 1e-30, 5e-13, 2e-12, 5e-11];

// From 5e-324 to 1e-305: a product with a weight has few digits left, or none.
const SMALLEST: [f64; 6] = [5e-324, 1e-322, 1e-316, 1e-309, 2e-308, 5e-306];

// What no trust is: just below 0 or above 1, or far from both.
const OUTSIDE: [f64; 7] = [
    -5e-324,
    -1e-300,
    -1.0,
    -f64::INFINITY,
    1.0000000000000002,
    2.0,
    f64::INFINITY,
];

fn tenths(s: Seed) -> f64 {
    (s.draw(11) as u32) as f64 / 10.0
}

// Up to twice one of these.
fn scaled(least: [f64; 6], s: Seed) -> f64 {
    least[s.draw(6) as usize] * (1.0 + tenths(s))
}

fn one_or(small: f64, s: Seed) -> f64 {
    if s.draw(2) == 0 { 1.0 } else { small }
}

impl Trust {
    fn value(self, s: Seed) -> f64 {
        match self {
            Trust::Given(v) => v,
            Trust::Tenths => tenths(s),
            Trust::Tiny => scaled(TINY, s),
            Trust::Smallest => scaled(SMALLEST, s),
            Trust::Outside => OUTSIDE[s.draw(7) as usize],
            Trust::OneOrTiny => one_or(scaled(TINY, s), s),
            Trust::OneOrSmallest => one_or(scaled(SMALLEST, s), s),
        }
    }
}

// The trusts of a job: of one observation, set apart, and of the others.
#[derive(Clone, Copy)]
pub struct Sort(Trust, Trust);

// The first has every trust 1, and the eighth and ninth have a bad one.
pub const SORTS: [Sort; 12] = [
    Sort(Trust::Given(1.0), Trust::Given(1.0)),
    Sort(Trust::Given(0.0), Trust::Given(0.0)),
    Sort(Trust::Given(0.0), Trust::Given(1.0)),
    Sort(Trust::Given(1.0), Trust::Given(0.0)),
    Sort(Trust::Tiny, Trust::Tiny),
    Sort(Trust::Smallest, Trust::Smallest),
    Sort(Trust::Given(-0.0), Trust::Tenths),
    Sort(Trust::Outside, Trust::Tenths),
    Sort(Trust::Given(f64::NAN), Trust::Tenths),
    Sort(Trust::Tenths, Trust::Tenths),
    Sort(Trust::Tiny, Trust::OneOrTiny),
    Sort(Trust::Smallest, Trust::OneOrSmallest),
];

// Fills s with trusts of this sort, the one at `one` set apart.
pub fn fill_trusts(s: &mut [f64], sort: Sort, one: usize, seed: Seed) {
    made::fill(s, seed, |i, at| {
        let trust = if i == one { sort.0 } else { sort.1 };
        trust.value(at)
    });
}
