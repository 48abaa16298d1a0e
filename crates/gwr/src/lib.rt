// The uninterrupted fit, 000's `gwr_fit`: the input's checks, the search if there is one, and the final fit.
// Limits of sizes, and room for rows, are clauses: docs/DECISIONS.md says why.
#![tactic(auto)]

ghost use Rattle.std.specs.Prelude.{◌≡◌, true, ◌*◌, ◌≤◌, length};
ghost use Rattle.setup.specs.Bandwidth.{Usable};
ghost use Rattle.sweep.specs.Sweep.{RoomFor};
ghost use Rattle.gwr.specs.Fit.{final_of, sought_of, gwr_fit};

use plan::Plan;
use refusal::Refusal;
use setup::{Columns, GwrBandwidth, GwrOptions, Problem, Setup};
use sweep::Finish;

// What a fit that was made answers, and the number of rows written. A refusal met while solving keeps the rows before it.
#[derive(Clone, Copy)]
pub struct Fit {
    pub finish: Finish,
    pub rows: usize,
}

// The final fit at a bandwidth, after `before` solves.
#[tactic(auto, unfolding(crate::specs::Fit::final_of))]
fn final_of(problem: &Problem<'_>, b: GwrBandwidth, before: u64, out: &mut [f64]) -> Fit
    requires usable { Usable b }
    requires room { RoomFor true problem.now.setup (length out.old) × (before ≤ 512 * 102) }
    ensures { (result, out.new) ≡ final_of problem.now.setup problem.now.columns b before out.old }
{
    let u = problem.setup();
    let s = sweep::fit_all_locations(problem, b, true, out);
    Fit {
        finish: sweep::finish_of(s.ending(u), b, before + s.solves()),
        rows: s.sweep.location,
    }
}

// The search from lo to hi, and the final fit at the bandwidth that it found.
#[tactic(auto, unfolding(crate::specs::Fit::sought_of))]
fn sought_of(problem: &Problem<'_>, lo: f64, hi: f64, out: &mut [f64]) -> Fit
    requires room { RoomFor true problem.now.setup (length out.old) }
    ensures { (result, out.new) ≡ sought_of problem.now.setup problem.now.columns lo hi out.old }
{
    let found = search::optimize_bandwidth(problem, lo, hi);
    final_of(problem, found.bandwidth, found.solves, out)
}

// 000's `gwr_fit`: the fit of n observations of p predictors each, n being half the number of coordinates. A refusal from the
// input is an Err, and comes with nothing written.
#[tactic(auto, unfolding(crate::specs::Fit::gwr_fit))]
pub fn gwr_fit(
    columns: &Columns<'_>,
    p: usize,
    options: GwrOptions,
    out: &mut [f64],
) -> Result<Fit, Refusal>
    ensures { (result, out.new) ≡ gwr_fit columns.now p options out.old }
{
    let plan = plan::accept(columns, p, options, out.len())?;
    let n = columns.coords.len() / 2;
    let problem = Problem::pose(Setup { options, n, p }, columns);
    Ok(match plan {
        Plan::Settled(b) => final_of(&problem, b, 0, out),
        Plan::Sought(lo, hi) => sought_of(&problem, lo, hi, out),
    })
}
