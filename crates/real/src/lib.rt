// Helpers on f64, most of which 000 takes from Rust's library. What each means is its contract.
#![tactic(auto)]

ghost use Rattle.std.specs.Prelude.{◌≡◌, ◌*◌, ◌^◌, ◌<◌, ◌≤◌, false, ◌&&◌, T, length, take, from_bits};
ghost use Rattle.std.specs.Float.{binary64};
ghost use Rattle.std.specs.Float.Ieee.{lt};
ghost use Rattle.std.specs.Float.Ieee.Scale.{finite};
ghost use Rattle.real.specs.Finite.{all_finite, in_unit, all_in_unit};
ghost use Rattle.real.specs.Reals.{magnitude, greater, lesser, clamp_unit, clamp_count, round_whole, round_into, Into, zero64, from_count};

// A count as a real: exact.
pub fn from_count(n: usize) -> f64
    requires { n < 2 ^ 32 }
    ensures { result ≡ from_count n }
{
    f64::from(n as u32)
}

// Rust's `x.is_finite()`, promised in the word that the definitions use; the must-fail edits of infinities are of this body.
#[tactic(auto, using(crate::proofs::Std::finite_same))]
pub fn is_finite(x: f64) -> bool
    ensures { result ≡ finite x }
{
    x.is_finite()
}

// Whether four numbers are finite: the first less itself is zero or else NaN, and zero times another is zero only where that is finite.
fn four_finite(a: f64, b: f64, c: f64, d: f64) -> bool
    ensures { result ≡ (finite a && finite b && finite c && finite d) }
{
    (a - a) * b * c * d == 0.0
}

// Whether the first 4 h numbers of s are finite, four at a time that stand h apart: one comparison for four, and neighbours beside
// each other for the processor to take two at once. An index: a zip of the four quarters would be three deep.
fn quarters_finite(s: &[f64], h: usize) -> bool
    requires { 4 * h ≤ length s.now }
    ensures { result ≡ all_finite (take (4 * h) s.now) }
{
    let mut good = true;
    for i in 0..h {
        good &= four_finite(s[i], s[h + i], s[2 * h + i], s[3 * h + i]);
    }
    good
}

// Whether the numbers of s are finite: zero times each of them.
fn rest_finite(s: &[f64]) -> bool
    ensures { result ≡ all_finite s.now }
{
    let mut z = 0.0;
    for x in s {
        z *= *x;
    }
    z == 0.0
}

// Whether every number of s is finite: four at a time, then what is left; fewer than 8 one by one.
#[tactic(auto, using(crate::proofs::Finite::all_of_parts))]
pub fn all_finite(s: &[f64]) -> bool
    ensures { result ≡ all_finite s.now }
{
    if s.len() < 8 {
        rest_finite(s)
    } else {
        let h = s.len() / 4;
        quarters_finite(s, h) & rest_finite(&s[4 * h..])
    }
}

// Whether 0 <= x <= 1.
pub fn in_unit(x: f64) -> bool
    ensures { result ≡ in_unit x }
{
    (0.0 <= x) & (x <= 1.0)
}

// Whether every number of s lies from 0 to 1. A flag, and no `all`, which would branch at each number.
#[tactic(auto, using(crate::proofs::Finite::more, crate::proofs::Finite::done))]
pub fn all_in_unit(s: &[f64]) -> bool
    ensures { result ≡ all_in_unit s.now }
{
    let mut good = true;
    for x in s {
        good &= in_unit(*x);
    }
    good
}

// The size of x: Rust's `f64::abs`. Where x <= 0.0 the difference is exact, and it is +0 for a zero of either sign. The library's
// branches on the sign, and a walk down a column of `gauss` by it took three times as long as by this.
#[tactic(auto, using(crate::proofs::Values::size_below, crate::proofs::Values::size_above))]
pub fn abs(x: f64) -> f64
    ensures { result ≡ magnitude x }
{
    if x <= 0.0 { 0.0 - x } else { x }
}

// The greater of a and b, and a where they are equal. For numbers that are not NaN: Rust's `f64::max` leaves open which of two zeros
// it gives, and this does not.
#[tactic(auto, unfolding(crate::specs::Reals::greater))]
pub fn max(a: f64, b: f64) -> f64
    ensures { result ≡ greater a b }
{
    if a < b { b } else { a }
}

// The lesser of a and b, and a where they are equal, in the same way.
#[tactic(auto, unfolding(crate::specs::Reals::lesser))]
pub fn min(a: f64, b: f64) -> f64
    ensures { result ≡ lesser a b }
{
    if b < a { b } else { a }
}

// Rust's `x.clamp(0.0, 1.0)`, promised in the word that the definitions use: NaN stays NaN, and -0 stays -0.
#[tactic(auto, unfolding(crate::specs::Reals::clamp_unit))]
pub fn clamp_unit(x: f64) -> f64
    ensures { result ≡ clamp_unit x }
{
    x.clamp(0.0, 1.0)
}

// The whole number nearest to x, halves up, for x above 0 and below 2^32: there x less its whole part is exact.
#[tactic(auto, using(crate::proofs::Values::above_minus_one, crate::proofs::Values::below_top, crate::proofs::Rounding::by_rest, crate::proofs::Values::cut_small, crate::proofs::Rounding::by_rest_lem))]
fn rounded(x: f64) -> u64
    requires positive { T (lt zero64 x) }
    requires below_2_to_32 { T (lt x (from_bits binary64 0x41F0_0000_0000_0000)) }
    ensures { result ≡ round_whole x }
{
    let t = std::num::truncating_f64_to_u64(x);
    let f = std::num::nearest_u64_to_f64(t);
    if x - f >= 0.5 { t + 1 } else { t }
}

// Rust's `(x.round() as usize).clamp(lo, hi)`: halves are rounded away from zero, and NaN and negative numbers give lo.
#[tactic(auto, unfolding(crate::specs::Reals::round_into))]
pub fn round_into(x: f64, lo: usize, hi: usize) -> usize
    requires in_order { lo ≤ hi }
    requires small { hi ≤ 2 ^ 32 }
    ensures { Into lo hi (round_into x lo hi) result }
{
    if x > 0.0 {
        if x < 4294967296.0 {
            return (rounded(x) as usize).clamp(lo, hi);
        }
        return hi;
    }
    lo
}
