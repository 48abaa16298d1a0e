// What rust/bench times or compares and no other call shows, with C linkage: square roots and exponentials of many numbers in place,
// so that a timing of one has no call's cost in it, the turns of a job, a walk that is stopped, and a fit by either criterion. Only
// rust/bench links it.
#![tactic(auto)]

ghost use Rattle.std.specs.Prelude.{◌≡◌, ◌/◌, map, ◌≤◌, length, get_or};
ghost use Rattle.real.specs.Reals.{zero64};
ghost use Rattle.root.specs.Root.{root};
ghost use Rattle.elementary.specs.Exp.{expv};
ghost use Rattle.setup.specs.Data.{trusted_data};
ghost use Rattle.measured.specs.Turns.{kernel_by, play_of, turns_of};
ghost use Rattle.measured.specs.Walks.{own_by, end_of, walks_of, asked_of};
ghost use Rattle.gwr.specs.Fit.{gwr_fit};
ghost use Rattle.measured.specs.Fits.{criterion_by, told_of, seen_of, fit_seen, judged_fit};

use criterion::Summary;
use gwr::Fit;
use kernel::{GwrKernel, Place};
use neighbours::Walker;
use refusal::Refusal;
use setup::{Columns, GwrBandwidth, GwrCriterion, GwrOptions};
use stepping::Job;

// Each number becomes its square root.
#[unsafe(no_mangle)]
pub extern "C" fn zescolumba_roots(values: &mut [f64])
    ensures { values.new ≡ map root values.old }
{
    mapped::roots(values);
}

// The same roots, guessed first and settled then.
#[unsafe(no_mangle)]
pub extern "C" fn zescolumba_roots_in_passes(values: &mut [f64])
    ensures { values.new ≡ map root values.old }
{
    mapped::roots_in_passes(values);
}

// Each number becomes its exponential.
#[unsafe(no_mangle)]
pub extern "C" fn zescolumba_exponentials(values: &mut [f64])
    ensures { values.new ≡ map expv values.old }
{
    mapped::exponentials(values);
}

// The kernel of the C interface's number, which, unlike a byte call's, is never refused.
#[tactic(auto, unfolding(crate::specs::Turns::kernel_by, kernel::specs::Numbers::kernel_of))]
fn kernel_by(number: u32) -> GwrKernel
    ensures { result ≡ kernel_by number }
{
    GwrKernel::try_from(u64::from(number)).unwrap_or(GwrKernel::Exponential)
}

// The job after so many turns of one allowance.
#[tactic(auto, using(real::proofs::Fold::none, real::proofs::Fold::done), unfolding(crate::specs::Turns::play_of))]
fn play(j: Job, columns: &Columns<'_>, out: &mut [f64], allowance: u32, turns: u32) -> Job
    ensures { (result, out.new) ≡ play_of columns.now allowance turns (j, out.old) }
{
    let mut k = j;
    // Nothing is indexed; the proof alone reads the number. A loop, since a proof knows nothing of what the closure of a fold wrote to
    // the output.
    for _i in 0..turns {
        k = job::turn(k, columns, &mut *out, allowance).job;
    }
    k
}

// Begins an unsearched job at the bandwidth distance 400 and takes it through so many turns; answers the solves that it has made,
// 0 where beginning refuses. The C interface lends slices one by one, and has a number for a kernel.
#[tactic(auto, unfolding(crate::specs::Turns::turns_of))]
#[unsafe(no_mangle)]
pub extern "C" fn zescolumba_turns(
    coords: &[f64],
    x: &[f64],
    y: &[f64],
    trust: &[f64],
    p: usize,
    kernel: u32,
    out: &mut [f64],
    allowance: u32,
    turns: u32,
) -> u64
    ensures { (result, out.new) ≡ turns_of (trusted_data coords.now x.now y.now trust.now) p kernel allowance turns out.old }
{
    let columns = Columns {
        coords,
        predictors: x,
        responses: y,
        trusts: trust,
    };
    let options = GwrOptions::unguarded(kernel_by(kernel), GwrBandwidth::Fixed(400.0), false);
    match starting::begin(&columns, p, options, &*out) {
        Ok(first) => {
            let last = play(first, &columns, out, allowance, turns);
            last.solves
        }
        Err(_) => 0,
    }
}

// The C interface has no `Option`: a number from n on is nobody's.
#[tactic(auto, unfolding(crate::specs::Walks::own_by))]
fn own_by(i: usize, n: usize) -> Option<usize>
    ensures { result ≡ own_by i n }
{
    (i < n).then_some(i)
}

// The sum in place `at` of a walk, 0 where there is none.
fn sum_at(walk: &Walker, at: usize) -> f64
    ensures { result ≡ get_or walk.now.sums at zero64 }
{
    walk.sums().get(at).copied().unwrap_or(0.0)
}

// What is seen of a walk's end.
#[tactic(auto, unfolding(crate::specs::Walks::end_of))]
fn see(walk: &Walker, k: usize, at: usize, seen: &mut [f64; 5])
    ensures { seen.new ≡ end_of walk.now k at seen.old }
{
    seen[1] = walk.found_by(k);
    seen[2] = walk.greatest();
    seen[3] = real::from_count(walk.sums().len());
    seen[4] = sum_at(walk, at);
}

// A walk from the place over the first m pantries, asked for k there, and then over the others, asked again.
#[tactic(auto, using(neighbours::proofs::Walks::walk_few), unfolding(crate::specs::Walks::walks_of))]
fn walks(
    coords: &[f64],
    place: Place,
    own: Option<usize>,
    m: usize,
    k: usize,
    at: usize,
    seen: &mut [f64; 5],
)
    requires { (length coords.now / 2 ≤ 512) × (m ≤ length coords.now / 2) }
    ensures { seen.new ≡ walks_of coords.now (length coords.now / 2) place.east place.north own m k at seen.old }
{
    let n = coords.len() / 2;
    let mut walk = Walker::new();
    walk.walk_on(coords, 0, m, place, own);
    seen[0] = walk.found_by(k);
    walk.walk_on(coords, m, n, place, own);
    see(&walk, k, at, seen);
}

// The same of the pantries that the coordinates have; an own number from their number on is nobody's. Answers 1, or 0 where they are
// more than 512, or fewer than m. The C interface gives easting and northing one by one.
#[tactic(auto, unfolding(crate::specs::Walks::asked_of))]
#[unsafe(no_mangle)]
pub extern "C" fn zescolumba_walk(
    coords: &[f64],
    east: f64,
    north: f64,
    own: usize,
    m: usize,
    k: usize,
    at: usize,
    seen: &mut [f64; 5],
) -> u32
    ensures { (result, seen.new) ≡ asked_of coords.now east north own m k at seen.old }
{
    let n = coords.len() / 2;
    if n <= 512 && m <= n {
        let place = Place { east, north };
        walks(coords, place, own_by(own, n), m, k, at, seen);
        1
    } else {
        0
    }
}

// The criterion of the C interface's number, which no byte call has; none is refused.
#[tactic(auto, unfolding(crate::specs::Fits::criterion_by))]
fn criterion_by(number: u32) -> GwrCriterion
    ensures { result ≡ criterion_by number }
{
    match number {
        0 => GwrCriterion::Unguarded,
        _ => GwrCriterion::Guarded,
    }
}

// The number, beside what a summary reports and how many rows were written. The C interface lends the two arrays one by one.
#[tactic(auto, unfolding(crate::specs::Fits::told_of))]
fn tell(number: u32, s: Summary, rows: usize, reals: &mut [f64; 2], counts: &mut [u64; 2]) -> u32
    ensures { (result, (reals.new, counts.new)) ≡ told_of number s rows reals.old counts.old }
{
    reals[0] = s.bandwidth;
    reals[1] = s.aicc;
    counts[0] = s.solves;
    counts[1] = rows as u64;
    number
}

// What is seen of a fit, in the arrays that the C interface lends.
fn seen_of(fit: Result<Fit, Refusal>, reals: &mut [f64; 2], counts: &mut [u64; 2]) -> u32
    ensures { (result, (reals.new, counts.new)) ≡ seen_of fit reals.old counts.old }
{
    match fit {
        Err(r) => r.number(),
        Ok(fit) => tell(
            fit.finish.number(),
            fit.finish.summary,
            fit.rows,
            reals,
            counts,
        ),
    }
}

// The fit by these options, seen so.
fn fit_seen(
    columns: &Columns<'_>,
    p: usize,
    options: GwrOptions,
    out: &mut [f64],
    reals: &mut [f64; 2],
    counts: &mut [u64; 2],
) -> u32
    ensures { ((result, (reals.new, counts.new)), out.new) ≡ fit_seen (gwr_fit columns.now p options out.old) reals.old counts.old }
{
    let fit = gwr::gwr_fit(columns, p, options, out);
    seen_of(fit, reals, counts)
}

// The fit of numbers by the byte call's numbers of kernel, kind and bandwidth, and a criterion's: 0 unguarded, any other guarded. Answers
// the refusal's number; bandwidth and AICc, solves and rows are lent. The C interface lends slices one by one.
#[tactic(auto, unfolding(crate::specs::Fits::judged_fit))]
#[unsafe(no_mangle)]
pub extern "C" fn zescolumba_fit_judged(
    coords: &[f64],
    x: &[f64],
    y: &[f64],
    trust: &[f64],
    p: usize,
    kernel: u64,
    kind: u64,
    bandwidth: u64,
    criterion: u32,
    out: &mut [f64],
    reals: &mut [f64; 2],
    counts: &mut [u64; 2],
) -> u32
    ensures { ((result, (reals.new, counts.new)), out.new) ≡ judged_fit (trusted_data coords.now x.now y.now trust.now) p kernel kind bandwidth criterion out.old reals.old counts.old }
{
    match request::options_of(kernel, kind, bandwidth) {
        Err(r) => r.number(),
        Ok(o) => {
            let columns = Columns {
                coords,
                predictors: x,
                responses: y,
                trusts: trust,
            };
            let options = o.judged_by(criterion_by(criterion));
            fit_seen(&columns, p, options, out, reals, counts)
        }
    }
}
