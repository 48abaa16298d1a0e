// The count of neighbours where no search is asked for.
// Limits of sizes, and room for rows, are clauses: docs/DECISIONS.md says why.
#![tactic(auto)]

ghost use Rattle.std.specs.Prelude.{◌≡◌, ◌≤◌};
ghost use Rattle.counts.specs.Count.{ceil_root, chosen_count, resolve_count};

// The least whole number whose square is at least n.
#[tactic(auto, using(crate::proofs::Roots::root_reached, crate::proofs::Roots::root_passed))]
fn ceil_root(n: usize) -> usize
    requires { n ≤ 512 }
    ensures { result ≡ ceil_root n }
{
    // Of 16 bits, since the library halves as often as half the bits of its number, whatever that is.
    let r = usize::from((n as u16).isqrt());
    if r * r < n { r + 1 } else { r }
}

// The count where none is given: the larger of p + 3 and the least whole number whose square is at least n.
#[tactic(auto, unfolding(crate::specs::Count::chosen_count))]
fn chosen_count(k: usize, n: usize, p: usize) -> usize
    requires { (n ≤ 512) × (p ≤ 7) }
    ensures { result ≡ chosen_count k n p }
{
    if k == 0 { (p + 3).max(ceil_root(n)) } else { k }
}

// An unsearched count: the chosen one, capped at n - 1 and raised to at least 1.
#[tactic(auto, unfolding(crate::specs::Count::resolve_count))]
pub fn resolve_count(k: usize, n: usize, p: usize) -> usize
    requires { (1 ≤ n) × (n ≤ 512) × (p ≤ 7) }
    ensures { result ≡ resolve_count k n p }
{
    chosen_count(k, n, p).min(n - 1).max(1)
}
