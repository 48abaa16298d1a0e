// The weighted normal equations, observation by observation. Weights have fixed room, since there is no heap: n of the 512 count.
// The predictors of an observation are a part of all of them: a type for at most seven would be made for each observation.
ghost use Rattle.std.specs.Prelude.{◌≡◌, ◌+◌, ◌≤◌, length};
ghost use Rattle.normal.specs.Design.{design_of};
ghost use Rattle.normal.specs.Equations.{add_row, observe, equations_of};

use crate::design::predictors_of;
use setup::Sample;

// The upper triangle of the matrix A, and the right-hand side.
#[derive(Clone, Copy)]
pub struct Equations {
    pub a: [[f64; 8]; 8],
    pub rhs: [f64; 8],
}

// Adds wx times predictor q to row[q + 1], for q from `from` on. The design row is read where its predictors stand.
#[tactic(auto, using(real::proofs::Fold::none, crate::proofs::DesignCells::own_next, real::proofs::Fold::done), unfolding(crate::specs::Equations::cell_step, crate::specs::Equations::add_row))]
fn add_row(row: &mut [f64; 8], wx: f64, own: &[f64], from: usize)
    requires { (length own.now ≤ 7) × (from ≤ length own.now) }
    ensures { row.new ≡ add_row wx (design_of own.now) (from + 1) (length own.now + 1) row.old }
{
    // An index (tried: of cells that a zip with `own` changes a proof knows nothing afterwards, and of an enumeration that skips it has
    // no number).
    for q in from..own.len() {
        row[q + 1] += wx * own[q];
    }
}

// The same of row 0, which has a cell for the 1 of the design row too.
#[tactic(auto, using(crate::proofs::DesignCells::row_front))]
fn add_first_row(row: &mut [f64; 8], wx: f64, own: &[f64])
    requires { length own.now ≤ 7 }
    ensures { row.new ≡ add_row wx (design_of own.now) 0 (length own.now + 1) row.old }
{
    row[0] += wx * 1.0;
    add_row(&mut *row, wx, own, 0);
}

// Adds an observation of weight w, response y and these predictors to the equations.
#[tactic(auto, using(real::proofs::Fold::none, crate::proofs::DesignCells::own_next, real::proofs::Fold::done, crate::proofs::DesignCells::observe_front), unfolding(crate::specs::Equations::observe_step, crate::specs::Equations::observe))]
fn observe(e: &mut Equations, w: f64, y: f64, own: &[f64])
    requires { length own.now ≤ 7 }
    ensures { e.new ≡ observe w (design_of own.now) y (length own.now + 1) e.old }
{
    // 000 multiplies by the 1 of the design row too.
    let first = w * 1.0;
    e.rhs[0] += first * y;
    add_first_row(&mut e.a[0], first, own);
    for (q, v) in own.iter().enumerate() {
        let wx = w * *v;
        e.rhs[q + 1] += wx * y;
        add_row(&mut e.a[q + 1], wx, own, q);
    }
}

// The weighted normal equations over observations in order, leaving out weight 0.
#[tactic(auto, using(real::proofs::Fold::none, crate::proofs::DesignCells::own_within, crate::proofs::DesignCells::observed, real::proofs::Fold::done), unfolding(crate::specs::Equations::normal_step, crate::specs::Equations::equations_of))]
pub fn equations_of(sample: &Sample<'_>, w: &[f64; 512]) -> Equations
    ensures { result ≡ equations_of sample.now.setup sample.now.columns w.now }
{
    let u = sample.setup();
    let x = sample.predictors();
    let y = sample.responses();
    let mut e = Equations {
        a: [[0.0; 8]; 8],
        rhs: [0.0; 8],
    };
    // An index: with no predictors (p = 0) `chunks_exact(p)` would panic, so they are found by j; weights and responses zipped and
    // numbered beside that would be no plainer. `sum_squares` of `evaluate` walks likewise; they share these lines alone.
    for j in 0..u.n {
        if w[j] == 0.0 {
            continue;
        }
        observe(&mut e, w[j], y[j], predictors_of(x, u.p, j));
    }
    e
}
