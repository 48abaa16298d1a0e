// The fit call on bytes, which are decoded into arrays of fixed room, since there is no heap: the parts of them that count are lent on.
// Limits of sizes, and room for rows, are clauses: docs/DECISIONS.md says why.
#![tactic(auto)]

ghost use Rattle.std.specs.Prelude.{◌≡◌, ◌+◌, ◌*◌, ◌/◌, ◌≤◌, ◌<◌, length};
ghost use Rattle.wire.specs.Wire.{placed};
ghost use Rattle.calls.specs.Calls.{room_of, summary_bytes, fitted_bytes, fit_parts, fit_bytes, Offered};
ghost use Rattle.request.specs.Answer.{answer_number};
ghost use Rattle.request.specs.Lengths.{ByteLengths};
ghost use Rattle.gwr.specs.Fit.{gwr_fit};

use criterion::Summary;
use refusal::Refusal;
use setup::{Columns, GwrOptions};

// How many numbers the fit may write: n rows, or none where output or summary has too few bytes.
#[tactic(auto, unfolding(crate::specs::Calls::room_of))]
fn room_of(n: usize, p: usize, out: usize, summary: usize) -> usize
    requires { (n ≤ 512) × (p ≤ 7) }
    ensures { result ≡ room_of n p out summary }
{
    if summary < 24 {
        return 0;
    }
    if out < 8 * (n * (p + 4)) {
        return 0;
    }
    n * (p + 4)
}

#[tactic(auto, using(crate::proofs::Bytes::summary_placed))]
fn store_summary(s: &mut [u8], v: Summary)
    requires { 24 ≤ length s.old }
    ensures { s.new ≡ placed s.old 0 (summary_bytes v) }
{
    wire::store(&mut *s, 0, wire::bits_of(v.bandwidth));
    wire::store(&mut *s, 8, wire::bits_of(v.aicc));
    wire::store(&mut *s, 16, v.solves);
}

// The fit of decoded numbers, with `rows` as its output. Rows and summary go out as bytes, unless the input was refused, to the
// two slices that document 01's call lends.
#[tactic(auto, using(crate::proofs::Answers::rows_fit, crate::proofs::Answers::rows_within))]
fn fitted_bytes(
    columns: &Columns<'_>,
    p: usize,
    options: GwrOptions,
    rows: &mut [f64],
    out: &mut [u8],
    summary: &mut [u8],
) -> Result<(), Refusal>
    requires { (p ≤ 7) × Offered (length rows.old) (length out.old) (length summary.old) }
    ensures { (answer_number result, (out.new, summary.new)) ≡ fitted_bytes p (gwr_fit columns.now p options rows.old) out.old summary.old }
{
    let fit = gwr::gwr_fit(columns, p, options, &mut *rows)?;
    wire::encode(&rows[..fit.rows * (p + 4)], out);
    store_summary(summary, fit.finish.summary);
    match fit.finish.refusal {
        Some(r) => Err(r),
        None => Ok(()),
    }
}

// The fit of slices of the right lengths, every observation fully trusted. Slices one by one, as document 01's call lends them.
#[tactic(auto, using(crate::proofs::Answers::room_small))]
fn fit_parts(
    coords: &[u8],
    x: &[u8],
    y: &[u8],
    p: usize,
    options: GwrOptions,
    out: &mut [u8],
    summary: &mut [u8],
) -> Result<(), Refusal>
    requires { ByteLengths (length coords.now) (length x.now) (length y.now) p }
    ensures { (answer_number result, (out.new, summary.new)) ≡ fit_parts coords.now x.now y.now p options out.old summary.old }
{
    let n = coords.len() / 16;
    let mut places = [0.0; 1024];
    let mut predictors = [0.0; 3584];
    let mut responses = [0.0; 512];
    let ones = [1.0; 512];
    let mut rows = [0.0; 5632];
    let places = &mut places[..2 * n];
    let predictors = &mut predictors[..n * p];
    let responses = &mut responses[..n];
    wire::decode(coords, &mut *places);
    wire::decode(x, &mut *predictors);
    wire::decode(y, &mut *responses);
    let columns = Columns {
        coords: &*places,
        predictors: &*predictors,
        responses: &*responses,
        trusts: &ones[..n],
    };
    let room = room_of(n, p, out.len(), summary.len());
    fitted_bytes(&columns, p, options, &mut rows[..room], out, summary)
}

// The fit call: coordinates, predictors and responses as bytes, rows and summary to the bytes lent. Numbers and slices one by one, since
// they are the C interface's, which document 01 lists.
#[tactic(auto, using(request::proofs::Lengths::passed, crate::proofs::Judged::call_unknown, crate::proofs::Judged::call_bytes, crate::proofs::Judged::call_parts))]
pub fn fit_bytes(
    coords: &[u8],
    x: &[u8],
    y: &[u8],
    p: u64,
    kernel: u64,
    kind: u64,
    bandwidth: u64,
    out: &mut [u8],
    summary: &mut [u8],
) -> Result<(), Refusal>
    ensures { (answer_number result, (out.new, summary.new)) ≡ fit_bytes coords.now x.now y.now p kernel kind bandwidth out.old summary.old }
{
    let options = request::options_of(kernel, kind, bandwidth)?;
    request::check_bytes(coords.len(), x.len(), y.len(), p)?;
    fit_parts(coords, x, y, p as usize, options, out, summary)
}
