// The input checks, and a job set up for its first trial or its final fit.
#![tactic(auto)]

ghost use Rattle.std.specs.Prelude.{◌≡◌, length};
ghost use Rattle.setup.specs.Shape.{Sized};
ghost use Rattle.starting.specs.Begin.{start_job, begin_of};

use golden::Bracket;
use plan::Plan;
use refusal::Refusal;
use setup::{Columns, GwrOptions, Setup};
use stepping::{Job, Stage};

// The final fit at the bandwidth settled, or the first trial of a search.
fn start(u: Setup, plan: Plan) -> Job
    requires { Sized u }
    ensures { result ≡ start_job u plan }
{
    match plan {
        Plan::Settled(b) => Job::fresh(u, Stage::Final, Bracket::none(), b),
        Plan::Sought(lo, hi) => {
            let g = Bracket::start(lo, hi);
            let b = bounds::bandwidth_at(u, g.c);
            Job::fresh(u, Stage::First, g, b)
        }
    }
}

// The input checks, and a job set up for its first trial or its final fit; a refused beginning makes none.
#[tactic(auto, unfolding(crate::specs::Begin::begin_of))]
pub fn begin(
    columns: &Columns<'_>,
    p: usize,
    options: GwrOptions,
    out: &[f64],
) -> Result<Job, Refusal>
    ensures { result ≡ begin_of columns.now p options (length out.now) }
{
    let plan = plan::accept(columns, p, options, out.len())?;
    let n = columns.coords.len() / 2;
    Ok(start(Setup { options, n, p }, plan))
}
