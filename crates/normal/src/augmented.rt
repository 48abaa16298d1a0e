// The augmented matrix [A | I], in fixed room, since there is no heap: m rows of it count, and 2 m cells of a row.
ghost use Rattle.std.specs.Prelude.{◌≡◌, ◌≤◌, ◌<◌};
ghost use Rattle.normal.specs.Augmented.{mirrored_cell, augmented_row, augmented_matrix};

// The cell of the symmetric matrix of which a is the upper triangle.
#[tactic(auto, unfolding(crate::specs::Augmented::mirrored_cell))]
fn mirrored_cell(a: &[[f64; 8]; 8], p: usize, q: usize) -> f64
    requires { (p < 8) × (q < 8) }
    ensures { result ≡ mirrored_cell a.now p q }
{
    if q < p { a[q][p] } else { a[p][q] }
}

// Row p of the augmented matrix: row p of the symmetric matrix, and the unit row.
#[tactic(auto, using(real::proofs::Fold::done), unfolding(crate::specs::Augmented::mirror_step, crate::specs::Augmented::augmented_row))]
fn augmented_row(a: &[[f64; 8]; 8], p: usize, m: usize) -> [f64; 16]
    requires { (p < m) × (m ≤ 8) }
    ensures { result ≡ augmented_row a.now m p }
{
    let mut r = [0.0; 16];
    // `array::from_fn` would ask of each of the 16 whether it counts.
    for (q, cell) in r[..m].iter_mut().enumerate() {
        *cell = mirrored_cell(a, p, q);
    }
    r[m + p] = 1.0;
    r
}

// The augmented matrix [A | I] of m rows.
#[tactic(auto, using(real::proofs::Fold::done), unfolding(crate::specs::Augmented::augment_step, crate::specs::Augmented::augmented_matrix))]
pub fn augmented_matrix(a: &[[f64; 8]; 8], m: usize) -> [[f64; 16]; 8]
    requires { m ≤ 8 }
    ensures { result ≡ augmented_matrix a.now m }
{
    let mut r = [[0.0; 16]; 8];
    // `array::from_fn` would ask of each of the 8 whether it counts.
    for (p, row) in r[..m].iter_mut().enumerate() {
        *row = augmented_row(a, p, m);
    }
    r
}
