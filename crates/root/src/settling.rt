// The square root from a guess, in integers: fast where the guess is near, and right whatever it is.
ghost use Rattle.std.specs.Prelude.{◌≡◌, ◌+◌, ◌*◌, ◌^◌, ◌-◌, ◌≤◌, ◌<◌};
ghost use Rattle.root.specs.Root.{nearest_root};

use super::plain::plain;

// a * 2^52 - g * g + 2^56, where g is near enough to the root that every step fits in 64 bits; else 0, and no Option: `settle` refuses
// a 0 by the test that it makes of every other number.
#[tactic(auto, using(crate::proofs::Squares::guess_square))]
fn excess(a: u64, g: u64) -> u64
    requires { (a < 2 ^ 54) × (g < 2 ^ 53) }
    ensures { (0 < result → result + g * g ≡ a * 2 ^ 52 + 2 ^ 56) × (result < 2 ^ 58) }
{
    let high = g / 0x800_0000;
    let low = g % 0x800_0000;
    let top = 4 * (high * high);
    if a < top {
        return 0;
    }
    let d = a - top;
    if 0x8000_0000 <= d {
        return 0;
    }
    let more = d * 0x100_0000 + 0x1000_0000;
    let cross = high * low;
    if more < cross {
        return 0;
    }
    let e = more - cross;
    if 0x4000_0000 <= e {
        return 0;
    }
    let rest = e * 0x1000_0000;
    let square = low * low;
    if rest < square {
        return 0;
    }
    rest - square
}

// The number nearest to the root of a * 2^52: the guess g or a neighbour of it, if its square says so, and else digit by digit.
// One guess in four is off by one, so which of the three it is takes no branch.
fn settle(a: u64, g: u64) -> u64
    requires { (2 ^ 52 ≤ a) × (a < 2 ^ 54 - 1) × (2 ^ 52 ≤ g) × (g < 2 ^ 53) }
    ensures { result ≡ nearest_root (a * 2 ^ 52) }
{
    let r = excess(a, g);
    let up = u64::from(0x100_0000_0000_0000 + g < r);
    let down = u64::from(r + g < 0x100_0000_0000_0001);
    if 0x100_0000_0000_0002 < r + 3 * g && r <= 0x100_0000_0000_0002 + 3 * g {
        return g + up - down;
    }
    plain(a)
}

// The number nearest to the root of a * 2^52: the guess y, settled. A guess that is NaN has no digits, and is not used.
pub fn quick(a: u64, y: f64) -> u64
    requires { (2 ^ 52 ≤ a) × (a < 2 ^ 54 - 1) }
    ensures { result ≡ nearest_root (a * 2 ^ 52) }
{
    if y.is_nan() {
        return plain(a);
    }
    let g = y.to_bits() % 0x10_0000_0000_0000;
    settle(a, g + 0x10_0000_0000_0000)
}
