// The square root of an f64, correctly rounded: Rust's `f64::sqrt`, in integers.
//
// A positive finite x is n * 2^-1074. `split` takes n apart into a significand a of 53 or 54 digits and half the length of n;
// `quick` finds the number of 53 digits nearest to the root of a * 2^52; `positive` puts the result's pattern together.
// Not the library's `sqrt`: that the root is the nearest is proved of these steps, and no processor's root is trusted for it.
#![tactic(auto)]

ghost use Rattle.std.specs.Prelude.{◌≡◌, true, ◌+◌, ◌*◌, ◌^◌, ◌≤◌, ◌<◌};
ghost use Rattle.std.specs.Float.Ieee.{lt, size};
ghost use Rattle.real.specs.Reals.{zero64, inf64};
ghost use Rattle.root.specs.Root.{root, root_units, in_units};
ghost use Rattle.root.specs.Parts.{Parted, units_of_bits};

mod guessing;
mod plain;
mod settling;

pub use guessing::guess;
use settling::quick;

// The leading digits of a number, 53 or 54 of them, and half its length in digits.
#[derive(Clone, Copy)]
struct Parts {
    a: u64,
    h: u64,
}

// The parts of a number of `size` digits, the first 53 of which are `sig`: an even length leaves one digit more in a. Lengths
// are even and odd by chance, so there is no branch.
#[tactic(auto, using(crate::proofs::Powers::by_length))]
fn halved(sig: u64, size: u64) -> Parts
    requires { (size < 2099) × (2 ^ 52 ≤ sig) × (sig < 2 ^ 53) }
    ensures { Parted (sig * 2 ^ (size + 53)) size result.a result.h }
{
    Parts {
        a: sig * (2 - size % 2),
        h: (size + 1) / 2,
    }
}

// The parts of the number of units of 2^-1074 in the positive finite f64 with the pattern b. A subnormal is shifted by its
// leading zeros, and a normal number has its leading digit put back.
#[tactic(auto, using(crate::proofs::Powers::subnormal))]
fn split(b: u64) -> Parts
    requires not_zero { 0 < b }
    requires finite_pattern { b < 2047 * 2 ^ 52 }
    ensures { Parted (units_of_bits b * 2 ^ 106) (size (units_of_bits b)) result.a result.h }
{
    let field = b / 0x10_0000_0000_0000;
    if field == 0 {
        let z = b.leading_zeros();
        halved(b << (z - 11), 64 - u64::from(z))
    } else {
        halved(0x10_0000_0000_0000 + b % 0x10_0000_0000_0000, field + 52)
    }
}

// The root of a number above zero and below infinity, y a guess. The exponent's field and the root's leading digit are added up.
fn positive(x: f64, y: f64) -> f64
    requires above_zero { lt zero64 x ≡ true }
    requires below_infinity { lt x inf64 ≡ true }
    ensures { result ≡ root_units (in_units x) }
{
    let p = split(x.to_bits());
    let q = quick(p.a, y);
    f64::from_bits((p.h + 484) * 0x10_0000_0000_0000 + q)
}

// The square root, whatever y is, and fast where y is `guess` of x. Roots of many numbers are faster where all are guessed first:
// a guess waits for divisions, and settling one for nothing else.
#[tactic(auto, unfolding(crate::specs::Root::root))]
pub fn sqrt_near(x: f64, y: f64) -> f64
    ensures { result ≡ root x }
{
    if x > 0.0 {
        if x < f64::INFINITY {
            return positive(x, y);
        }
        return x;
    }
    if x < 0.0 {
        return f64::NAN;
    }
    x
}

// The square root, correctly rounded. NaN for a negative number; zero of either sign, infinity and NaN for themselves.
pub fn sqrt(x: f64) -> f64
    ensures { result ≡ root x }
{
    sqrt_near(x, guess(x))
}
