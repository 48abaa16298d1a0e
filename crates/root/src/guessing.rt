// A guess at a square root, in floating point. How near it comes is not claimed: `settle` judges it.
ghost use Rattle.std.specs.Prelude.{◌≡◌, cond};
ghost use Rattle.std.specs.Float.{binary64};
ghost use Rattle.std.specs.Float.Ieee.{eq, to_bits};
ghost use Rattle.root.specs.Guess.{estimate_of, newton_of, guess_of};

// The pattern of x, and 0 for NaN.
#[tactic(auto, using(real::proofs::Std::number_same))]
fn pattern(x: f64) -> u64
    ensures { result ≡ cond (eq x x) (to_bits binary64 x) 0 }
{
    if x.is_nan() { 0 } else { x.to_bits() }
}

// A guess at the root of x, but for a power of two: at that of s, from 1/2 to 2, which has the digits of x and an exponent that
// differs by an even number; at nothing of use where x is subnormal. How near it comes is not claimed: `settle` judges it.
#[tactic(auto, using(real::proofs::Values::no_nan), unfolding(crate::specs::Guess::guess_of))]
pub fn guess(x: f64) -> f64
    ensures { result ≡ guess_of x }
{
    let s = f64::from_bits(pattern(x) % 0x20_0000_0000_0000 + 0x3FE0_0000_0000_0000);
    newton(s, estimate(s))
}

// A polynomial within one part in 15,000 of the root of s, for s from 1/2 to 2.
#[tactic(auto, unfolding(crate::specs::Guess::estimate_of))]
fn estimate(s: f64) -> f64
    ensures { result ≡ estimate_of s }
{
    let w = s * s;
    let low = 0.24291946171660353 + 1.231231685443024 * s;
    let middle = 0.43704963265014685 * s - 0.7920037540880022;
    let high = 0.018005498943979206 * s - 0.1372273612586071;
    low + w * (middle + w * high)
}

// Two steps of Newton's iteration for the root of s, from y: z is twice the first.
#[tactic(auto, unfolding(crate::specs::Guess::newton_of))]
fn newton(s: f64, y: f64) -> f64
    ensures { result ≡ newton_of s y }
{
    let z = y + s / y;
    0.25 * z + s / z
}
