// 000's `invert_matrix`: Gauss-Jordan elimination with partial pivoting on the augmented matrix [A | I].
//
// A matrix has fixed room, since there is no heap: n rows and m columns of it count, and rows and columns go by their numbers.
// The two are handed on beside it, as the definitions have them: a struct of the three would be made for the one call of `eliminate`.
#![tactic(auto)]

ghost use Rattle.std.specs.Prelude.{◌≡◌, ◌≤◌, ◌<◌};
ghost use Rattle.gauss.specs.Gauss.{pivot_step, pivot_of, div_row, less_row, clear_row, cleared, reduced, elimination};

// The row and the magnitude of a pivot.
#[derive(Clone, Copy)]
pub struct Pivot {
    pub row: usize,
    pub val: f64,
}

// The pivot so far, or row k where its cell in column i is larger.
#[tactic(auto, unfolding(crate::specs::Gauss::pivot_step, crate::specs::Gauss::cell))]
fn better(a: &[[f64; 16]; 8], i: usize, k: usize, p: Pivot) -> Pivot
    requires { (i < 8) × (k < 8) }
    ensures { result ≡ pivot_step a.now i k p }
{
    let v = real::abs(a[k][i]);
    if v > p.val {
        Pivot { row: k, val: v }
    } else {
        p
    }
}

// The row from i to n - 1 whose cell in column i has the largest magnitude, the first on a tie.
#[tactic(auto, using(real::proofs::Fold::none, real::proofs::Fold::done), unfolding(crate::specs::Gauss::pivot_of, crate::specs::Gauss::cell))]
fn find_pivot(a: &[[f64; 16]; 8], i: usize, n: usize) -> Pivot
    requires { (i < n) × (n ≤ 8) }
    ensures { result ≡ pivot_of a.now i n }
{
    let mut p = Pivot {
        row: i,
        val: real::abs(a[i][i]),
    };
    // An index: the pivot is a row's number, the first on a tie, where `max_by` would give the last.
    for k in i + 1..n {
        p = better(a, i, k, p);
    }
    p
}

// The first m cells, each divided by v.
#[tactic(auto, using(real::proofs::Fronts::untouched, real::proofs::Fold::done), unfolding(crate::specs::Gauss::div_step, crate::specs::Gauss::div_row))]
fn div_row(row: &mut [f64; 16], v: f64, m: usize)
    requires { m ≤ 16 }
    ensures { row.new ≡ div_row v m row.old }
{
    for x in row[..m].iter_mut() {
        *x /= v;
    }
}

// The first m cells, each less v times the cell of `by`.
#[tactic(auto, using(real::proofs::Fronts::untouched, real::proofs::Fold::done), unfolding(crate::specs::Gauss::less_step, crate::specs::Gauss::less_row))]
fn less_row(row: &mut [f64; 16], v: f64, by: &[f64; 16], m: usize)
    requires { m ≤ 16 }
    ensures { row.new ≡ less_row v by.now m row.old }
{
    // Numbered, since of cells that a zip with `by` changes a proof knows nothing afterwards.
    for (j, x) in row[..m].iter_mut().enumerate() {
        *x -= v * by[j];
    }
}

// Row k less its cell i times row i, `by`; row i itself, and a row whose cell is zero, as they are.
#[tactic(auto, unfolding(crate::specs::Gauss::clear_row))]
fn clear_row(row: &mut [f64; 16], by: &[f64; 16], k: usize, i: usize, m: usize)
    requires { (i < 8) × (m ≤ 16) }
    ensures { row.new ≡ clear_row k i by.now m row.old }
{
    if k == i {
        return;
    }
    let factor = row[i];
    if factor == 0.0 {
        return;
    }
    less_row(row, factor, by, m);
}

// Column i cleared in every row but row i, which stays: one copy of it serves every row.
#[tactic(auto, using(real::proofs::Fold::done), unfolding(crate::specs::Gauss::cleared))]
fn clear(a: &mut [[f64; 16]; 8], i: usize, n: usize, m: usize)
    requires { (i < 8) × (n ≤ 8) × (m ≤ 16) }
    ensures { a.new ≡ cleared i n m a.old }
{
    let by = a[i];
    // Numbered, since row i, told from the others by its number, stays.
    for (k, row) in a[..n].iter_mut().enumerate() {
        clear_row(row, &by, k, i, m);
    }
}

// One step at column i with the pivot's row p: swapped into place, divided by the pivot, and the column cleared.
#[tactic(auto, unfolding(crate::specs::Gauss::reduced))]
fn reduce(a: &mut [[f64; 16]; 8], i: usize, n: usize, m: usize, p: usize)
    requires { (i < n) × (n ≤ 8) × (m ≤ 16) × (p < 8) }
    ensures { a.new ≡ reduced a.old i n m p }
{
    a.swap(i, p);
    let v = a[i][i];
    div_row(&mut a[i], v, m);
    clear(&mut *a, i, n, m);
}

// The elimination over n rows and m columns, on one matrix in place: an Err where a pivot is below 1e-12, that is, the matrix is
// singular: the matrix as far as it was eliminated.
pub fn eliminate(
    mut a: [[f64; 16]; 8],
    n: usize,
    m: usize,
) -> Result<[[f64; 16]; 8], [[f64; 16]; 8]>
    requires { (n ≤ 8) × (m ≤ 16) }
    ensures { result ≡ elimination a n m }
{
    // An index: step i is about row and column i.
    for i in 0..n {
        let p = find_pivot(&a, i, n);
        if p.val < 1e-12 {
            return Err(a);
        }
        reduce(&mut a, i, n, m, p.row);
    }
    Ok(a)
}
