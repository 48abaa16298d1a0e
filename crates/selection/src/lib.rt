// Which of some numbers is the m-th smallest, by counting: how many are at most a number, and how many below it.
// `length s < 2 ^ 32`, which the sum of `count` and `real::from_count` ask, is a clause: a type would have each caller make one.
#![tactic(auto)]

ghost use Rattle.std.specs.Prelude.{◌≡◌, ◌^◌, ◌⊎◌, ◌≤◌, ◌<◌, T, Bool, Float, length, count_by};
ghost use Rattle.std.specs.Float.Ieee.{le, lt};
ghost use Rattle.selection.specs.Kth.{is_kth, kth_smallest};

// How many of s pass the test, by any p that says what it answers. A sum, since `filter(..).count()` branches at each number, which
// took three times as long.
fn count<F: Fn(f64) -> bool>(s: &[f64], test: F) -> usize
    requires few { length s.now < 2 ^ 32 }
    requires test { F.IsAlwaysCallable test }
    ensures { (p : Float → Bool) → ((x : Float) (b : Bool) → F.post test x b → b ≡ p x) → result ≡ count_by p s.now }
{
    s.iter().map(|x| usize::from(test(*x))).sum()
}

// Whether v is the m-th smallest of s.
#[tactic(auto, unfolding(crate::specs::Kth::is_kth, crate::specs::Kth::at_most, crate::specs::Kth::fewer))]
fn is_kth(s: &[f64], m: usize, v: f64) -> bool
    requires { length s.now < 2 ^ 32 }
    ensures { result ≡ is_kth s.now m v }
{
    m <= count(s, |x| x <= v) && count(s, |x| x < v) < m
}

// Where a number is looked for: from lo on and below hi, and how many numbers are below either. What makes and narrows a bracket
// claims nothing of it, since `select` judges what comes of it.
#[derive(Clone, Copy)]
struct Bracket {
    lo: f64,
    below_lo: f64,
    hi: f64,
    below_hi: f64,
}

// The bracket of n numbers from 0 to top, with a little more, so that top is below its end.
fn whole(n: usize, top: f64) -> Bracket
    requires { n < 2 ^ 32 }
{
    Bracket {
        lo: 0.0,
        below_lo: 0.0,
        hi: 1.0625 * top,
        below_hi: real::from_count(n),
    }
}

// The bracket from x on, which so many are below; `ended` sets the other two fields.
fn raised(b: Bracket, x: f64, below: f64) -> Bracket {
    Bracket {
        lo: x,
        below_lo: below,
        ..b
    }
}

// The bracket that ends at x, which so many are below.
fn ended(b: Bracket, x: f64, below: f64) -> Bracket {
    Bracket {
        hi: x,
        below_hi: below,
        ..b
    }
}

// Where a bracket is cut for a number that `rank` are below: in proportion to the counts, since squares of distances spread about
// evenly over a plane; every third time in the middle, so that it gets narrow however they spread.
fn part(b: Bracket, rank: f64, t: u64) -> f64 {
    if t % 3 == 2 {
        return 0.5 * (b.lo + b.hi);
    }
    b.lo + (b.hi - b.lo) * ((rank - b.below_lo) / (b.below_hi - b.below_lo))
}

// The bracket cut up to 16 times, until m of s are below its end.
fn narrow(s: &[f64], m: usize, from: Bracket) -> Bracket
    requires { (length s.now < 2 ^ 32) × (m ≤ length s.now) }
{
    let rank = real::from_count(m) + 0.5;
    let mut b = from;
    // Counted: t says which cut, every third in the middle.
    for t in 0..16u64 {
        let at = part(b, rank, t);
        let c = count(s, |x| x < at);
        let below = real::from_count(c);
        if c == m {
            return ended(b, at, below);
        }
        if c < m {
            b = raised(b, at, below);
        } else {
            b = ended(b, at, below);
        }
    }
    b
}

// x, or 0 from hi on.
fn cut(x: f64, hi: f64) -> f64 {
    if x < hi { x } else { 0.0 }
}

// The greatest of s that is below hi, and 0 where none is. Four at a time, since each waits for the one before.
fn greatest_below(s: &[f64], hi: f64) -> f64 {
    let (fours, rest) = s.as_chunks::<4>();
    let mut a = 0.0;
    let mut b = 0.0;
    let mut c = 0.0;
    let mut d = 0.0;
    for four in fours {
        a = real::max(a, cut(four[0], hi));
        b = real::max(b, cut(four[1], hi));
        c = real::max(c, cut(four[2], hi));
        d = real::max(d, cut(four[3], hi));
    }
    for x in rest {
        a = real::max(a, cut(*x, hi));
    }
    real::max(real::max(a, b), real::max(c, d))
}

// The m-th smallest of s, each of them judged.
#[tactic(auto, unfolding(crate::specs::Kth::kth_smallest, crate::specs::Kth::kth_step))]
fn each(s: &[f64], m: usize, otherwise: f64) -> f64
    requires { length s.now < 2 ^ 32 }
    ensures { result ≡ kth_smallest s.now m otherwise }
{
    s.iter()
        .fold(otherwise, |v, x| if is_kth(s, m, *x) { *x } else { v })
}

// The m-th smallest of s, or `otherwise` where they are fewer than m. No Option: `otherwise`, as a rule the greatest of s, is also the
// top of the first bracket. Numbers that are equal keep a bracket from having one number only, so it is judged after every 16 cuts.
// Where the brackets find none (some are infinite or NaN, or many differ by next to nothing), each number is judged.
#[tactic(auto, using(crate::proofs::Counts::selected, crate::proofs::Counts::selected_few))]
pub fn select(s: &[f64], m: usize, otherwise: f64) -> f64
    requires { length s.now < 2 ^ 32 }
    ensures { T (is_kth s.now m result) ⊎ (result ≡ kth_smallest s.now m otherwise) }
{
    if s.len() < m {
        return otherwise;
    }
    let mut b = whole(s.len(), otherwise);
    // Counted: so many times, ended by the first that is found.
    for _ in 0..8 {
        b = narrow(s, m, b);
        let v = greatest_below(s, b.hi);
        if is_kth(s, m, v) {
            return v;
        }
        b = ended(b, v, real::from_count(count(s, |x| x < v)));
    }
    if is_kth(s, m, otherwise) {
        return otherwise;
    }
    each(s, m, otherwise)
}
