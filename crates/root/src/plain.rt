// The square root digit by digit, in integers: right for every number, and slow. What is known of a is a clause of each function: a
// struct would be taken apart in each.
ghost use Rattle.std.specs.Prelude.{◌≡◌, ◌*◌, ◌^◌, ◌-◌, ◌≤◌, ◌<◌};
ghost use Rattle.root.specs.Root.{nearest_root};
ghost use Rattle.root.specs.Parts.{Rooted};

// The whole root of a number and what is left: q * q + rem is the number.
#[derive(Clone, Copy)]
struct Root {
    q: u64,
    rem: u64,
}

// The whole root of a * 2^52, digit by digit: c holds the digits of a that are not used yet, as 54 places.
fn digits(a: u64) -> Root
    requires { a < 2 ^ 54 }
    ensures { Rooted (a * 2 ^ 52) result.q result.rem }
{
    let mut q = 0u64;
    let mut rem = 0u64;
    let mut c = a;
    // Counted: so many digits, nothing is indexed; the proof alone reads which.
    for _i in 0..53u64 {
        let next = rem * 4 + c / 0x10_0000_0000_0000;
        c = c % 0x10_0000_0000_0000 * 4;
        let t = q * 4 + 1;
        if t <= next {
            rem = next - t;
            q = q * 2 + 1;
        } else {
            rem = next;
            q = q * 2;
        }
    }
    Root { q, rem }
}

// The number nearest to the root of a * 2^52, from the whole root and what is left: the root lies above q + 1/2 where q < rem.
fn rounded(r: Root, a: u64) -> u64
    requires rooted { Rooted (a * 2 ^ 52) r.q r.rem }
    requires in_range { (2 ^ 52 ≤ a) × (a < 2 ^ 54 - 1) }
    ensures { result ≡ nearest_root (a * 2 ^ 52) }
{
    if r.q < r.rem { r.q + 1 } else { r.q }
}

// The number nearest to the root of a * 2^52, digit by digit: right for every a, and slow.
pub fn plain(a: u64) -> u64
    requires { (2 ^ 52 ≤ a) × (a < 2 ^ 54 - 1) }
    ensures { result ≡ nearest_root (a * 2 ^ 52) }
{
    rounded(digits(a), a)
}
