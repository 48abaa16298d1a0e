// A trial: a sweep that gives its score and writes no row.
ghost use Rattle.std.specs.Prelude.{◌≡◌};
ghost use Rattle.setup.specs.Bandwidth.{Usable};
ghost use Rattle.search.specs.Trial.{evaluate_aicc};

use super::Trial;
use setup::{GwrBandwidth, Problem};

// 000's `evaluate_aicc`: the trial at a bandwidth.
#[tactic(auto, unfolding(crate::specs::Trial::evaluate_aicc))]
pub fn evaluate_aicc(problem: &Problem<'_>, b: GwrBandwidth) -> Trial
    requires usable { Usable b }
    ensures { result ≡ evaluate_aicc problem.now.setup problem.now.columns b }
{
    let u = problem.setup();
    let mut none: [f64; 0] = [0.0; 0];
    let s = sweep::fit_all_locations(problem, b, false, &mut none);
    Trial {
        score: criterion::score_of(s.ending(u)),
        solves: s.solves(),
    }
}
