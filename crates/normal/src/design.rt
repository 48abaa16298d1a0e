// Design rows, of any predictors that are lent: a method of `Sample` would ask it for its sizes at each observation.
ghost use Rattle.std.specs.Prelude.{◌≡◌, ◌+◌, ◌*◌, ◌≤◌, length};
ghost use Rattle.normal.specs.Design.{predictors_of, design_row};

// The p predictors of observation j, which stand row by row in x.
pub fn predictors_of(x: &[f64], p: usize, j: usize) -> &[f64]
    requires { j * p + p ≤ length x.now }
    ensures { result.now ≡ predictors_of x.now p j }
{
    let at = j * p;
    &x[at..at + p]
}

// The design row of observation j: 1, and its p predictors.
pub fn design_row(x: &[f64], p: usize, j: usize) -> [f64; 8]
    requires { (j * p + p ≤ length x.now) × (p ≤ 7) }
    ensures { result ≡ design_row x.now p j }
{
    let own = predictors_of(x, p, j);
    let mut r = [0.0; 8];
    r[0] = 1.0;
    r[1..p + 1].copy_from_slice(own);
    r
}
