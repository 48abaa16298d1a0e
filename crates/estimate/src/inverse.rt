// The inverse of the matrix of the normal equations: the right half of the eliminated matrix, of which m rows count.
ghost use Rattle.std.specs.Prelude.{◌≡◌, ◌≤◌, ◌<◌};
ghost use Rattle.estimate.specs.Inverse.{inversion, inverse_times, inverse_finite};

use crate::inner::inner_product;

// The elimination of 000's `invert_matrix`, of the matrix of m rows whose upper triangle is a: an Err where it is singular:
// [A | I] as far as it was eliminated.
#[tactic(auto, unfolding(crate::specs::Inverse::inversion))]
pub fn invert_matrix(a: &[[f64; 8]; 8], m: usize) -> Result<[[f64; 16]; 8], [[f64; 16]; 8]>
    requires { m ≤ 8 }
    ensures { result ≡ inversion a.now m }
{
    gauss::eliminate(normal::augmented_matrix(a, m), m, 2 * m)
}

// The inner product of a row of the inverse, which stands from cell m on, with v.
#[tactic(auto, using(crate::proofs::Products::inverse_inner))]
pub fn inverse_times(a: &[[f64; 16]; 8], p: usize, v: [f64; 8], m: usize) -> f64
    requires { (p < 8) × (m ≤ 8) }
    ensures { result ≡ inverse_times a.now m p v }
{
    inner_product(0.0, &a[p][m..2 * m], &v[..m])
}

// Whether the inverse is finite.
#[tactic(auto, using(real::proofs::Fold::none, crate::proofs::Products::row_tested, real::proofs::Fold::done), unfolding(crate::specs::Inverse::all_step, crate::specs::Inverse::all_below, crate::specs::Inverse::inverse_finite))]
pub fn inverse_finite(a: &[[f64; 16]; 8], m: usize) -> bool
    requires { m ≤ 8 }
    ensures { result ≡ inverse_finite a.now m }
{
    let mut good = true;
    // An index (tried: a proof does not know the length of a row that an iterator gives).
    for p in 0..m {
        good &= real::all_finite(&a[p][m..2 * m]);
    }
    good
}
