// A sweep over the locations at one bandwidth, 000's `fit_all_locations`, and what a fit answers of one. The uninterrupted fit
// and the job share it.
#![tactic(auto)]

ghost use Rattle.std.specs.Prelude.{◌≡◌, ◌+◌, ◌*◌, ◌≤◌, ◌<◌, length};
ghost use Rattle.setup.specs.Bandwidth.{Usable};
ghost use Rattle.sweep.specs.Sweep.{new_sweep, add_values, next_location, row_after, fit_all_locations, solves_of, ending_of, RoomFor};
ghost use Rattle.sweep.specs.Finish.{finish_of, finish_number};

use criterion::Summary;
use evaluate::Values;
use local::Solved;
use refusal::Refusal;
use setup::{GwrBandwidth, Problem, Setup};

// How far a sweep has come: the location that it is at, trace of the hat matrix and sum of squared residuals before it.
#[derive(Clone, Copy)]
pub struct Sweep {
    pub location: usize,
    pub trace: f64,
    pub squares: f64,
}

impl Sweep {
    // Before the first location.
    pub fn new() -> Self
        ensures { result ≡ new_sweep }
    {
        Sweep {
            location: 0,
            trace: 0.0,
            squares: 0.0,
        }
    }

    // The sums with a location solved so.
    pub fn add(mut self, v: Values) -> Self
        ensures { result ≡ add_values self v }
    {
        self.trace += v.leverage;
        self.squares += v.residual * v.residual;
        self
    }

    // On to the next location.
    pub fn next(mut self) -> Self
        requires { self.location < 512 }
        ensures { result ≡ next_location self }
    {
        self.location += 1;
        self
    }
}

// A sweep so far, and the refusal that stopped it, if one did. Not a Result: how far it came is known in both cases.
#[derive(Clone, Copy)]
pub struct Swept {
    pub stopped: Option<Refusal>,
    pub sweep: Sweep,
}

impl Swept {
    // The solves that it made.
    pub fn solves(self) -> u64
        requires { self.sweep.location ≤ 512 }
        ensures { result ≡ solves_of self }
    {
        self.sweep.location as u64 + u64::from(self.stopped.is_some())
    }

    // What a whole sweep ends with: its AICc, or the refusal that it met.
    pub fn ending(self, u: Setup) -> Result<f64, Refusal>
        requires { u.n ≤ 512 }
        ensures { result ≡ ending_of u self }
    {
        match self.stopped {
            None => criterion::corrected_aic(u, self.sweep.squares, self.sweep.trace),
            Some(r) => Err(r),
        }
    }
}

// Row i, where rows are written and the location was solved. Whether they are is told beside the output: no contract can name what an
// Option of a lent slice holds after the call.
#[tactic(auto, using(row::proofs::Rows::row_within))]
pub fn write_row(out: &mut [f64], rows: bool, u: Setup, i: usize, outcome: Result<Solved, Refusal>)
    requires sizes { (u.n ≤ 512) × (u.p ≤ 7) × (i < u.n) }
    requires room { RoomFor rows u (length out.old) }
    ensures { out.new ≡ row_after rows u i outcome out.old }
{
    if rows {
        if let Ok(solved) = outcome {
            row::put_row(out, u.p + 1, i, solved.beta, solved.values);
        }
    }
}

// 000's `fit_all_locations`: locations 0 to n - 1 in order, up to the first refusal, with their rows or, in a trial, without.
#[tactic(auto, using(real::proofs::Fold::none, crate::proofs::Sweeps::after_found, crate::proofs::Sweeps::visit_going, crate::proofs::Sweeps::stopped_rest, real::proofs::Fold::done), unfolding(crate::specs::Sweep::fit_all_locations))]
pub fn fit_all_locations(
    problem: &Problem<'_>,
    b: GwrBandwidth,
    rows: bool,
    out: &mut [f64],
) -> Swept
    requires usable { Usable b }
    requires room { RoomFor rows problem.now.setup (length out.old) }
    ensures { (result, out.new) ≡ fit_all_locations rows problem.now.setup problem.now.columns b out.old }
{
    let u = problem.setup();
    let mut sweep = Sweep::new();
    // An index: location i is solved, and its row is the i-th.
    for i in 0..u.n {
        let outcome = local::solve_location(problem, b, i);
        write_row(&mut *out, rows, u, i, outcome);
        match outcome {
            Ok(solved) => sweep = sweep.add(solved.values).next(),
            Err(r) => {
                return Swept {
                    stopped: Some(r),
                    sweep,
                };
            }
        }
    }
    Swept {
        stopped: None,
        sweep,
    }
}

// What a fit that was made answers: the refusal that it met while solving, if any, and its summary in both cases.
#[derive(Clone, Copy)]
pub struct Finish {
    pub refusal: Option<Refusal>,
    pub summary: Summary,
}

impl Finish {
    // How it ended, as a number for C: 0 where no refusal was met, else the refusal's.
    pub fn number(self) -> u32
        ensures { result ≡ finish_number self }
    {
        match self.refusal {
            None => 0,
            Some(r) => r.number(),
        }
    }
}

// The answer of a fit that ended so, after so many solves.
pub fn finish_of(ending: Result<f64, Refusal>, b: GwrBandwidth, solves: u64) -> Finish
    requires { Usable b }
    ensures { result ≡ finish_of ending b solves }
{
    match ending {
        Ok(aicc) => Finish {
            refusal: None,
            summary: Summary {
                bandwidth: b.report_value(),
                aicc,
                solves,
            },
        },
        Err(r) => Finish {
            refusal: Some(r),
            summary: Summary::failed(solves),
        },
    }
}
