// The output row of a location. Coefficients have fixed room, since there is no heap: m of the 8 count.
#![tactic(auto)]

ghost use Rattle.std.specs.Prelude.{◌≡◌, ◌++◌, ◌+◌, ◌*◌, ◌≤◌, length, drop};
ghost use Rattle.row.specs.Row.{row_of, put_row};

use evaluate::Values;

// Writes a row to the start of out.
#[tactic(auto, unfolding(crate::specs::Row::row_of))]
fn write_row(out: &mut [f64], beta: [f64; 8], m: usize, v: Values)
    requires { (m ≤ 8) × (m + 3 ≤ length out.old) }
    ensures { out.new ≡ row_of beta m v ++ drop (m + 3) out.old }
{
    out[..m].copy_from_slice(&beta[..m]);
    out[m..m + 3].copy_from_slice(&[v.predicted, v.residual, v.local_r2]);
}

// Row i of the output: the part that starts at i * (m + 3) is lent on.
#[tactic(auto, unfolding(crate::specs::Row::put_row))]
pub fn put_row(out: &mut [f64], m: usize, i: usize, beta: [f64; 8], v: Values)
    requires { (m ≤ 8) × (i * (m + 3) + (m + 3) ≤ length out.old) }
    ensures { out.new ≡ put_row out.old m i beta v }
{
    let at = i * (m + 3);
    write_row(&mut out[at..], beta, m, v);
}
