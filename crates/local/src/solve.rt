// One local solve: 000's `solve_local` with `hat_diagonal` and `local_r_squared`.
ghost use Rattle.std.specs.Prelude.{◌≡◌, ◌<◌};
ghost use Rattle.setup.specs.Bandwidth.{Usable};
ghost use Rattle.local.specs.Solve.{solve_local, solve_location};

use crate::Solved;
use estimate::Coefficients;
use refusal::Refusal;
use setup::{GwrBandwidth, Problem};

// 000's `solve_local`, at bandwidth distance b.
#[tactic(auto, using(checks::proofs::Tests::handed_on, estimate::proofs::Lent::put_found, estimate::proofs::Lent::put_refused, estimate::proofs::Blind::fit_asks_no_trust, evaluate::proofs::Blind::values_ask_no_trust), unfolding(crate::specs::Solve::solved_by, crate::specs::Solve::solve_local))]
fn solve_local(problem: &Problem<'_>, i: usize, b: f64) -> Result<Solved, Refusal>
    requires { i < problem.now.setup.n }
    ensures { result ≡ solve_local problem.now.setup problem.now.columns i b }
{
    // Room for the most observations, since there is no heap.
    let mut w = [0.0; 512];
    let sum = weights::weigh(problem, problem.place(i), b, &mut w);
    let sample = problem.sample();
    let mut fit = Coefficients::none();
    estimate::fit_into(sample, &w, sum, &mut fit)?;
    let values = evaluate::values_at(sample, &w, i, &fit, sum);
    Ok(Solved {
        values,
        beta: fit.beta,
    })
}

// Location i solved at its own bandwidth.
#[tactic(auto, unfolding(crate::specs::Solve::solve_location))]
pub fn solve_location(
    problem: &Problem<'_>,
    bandwidth: GwrBandwidth,
    i: usize,
) -> Result<Solved, Refusal>
    requires usable { Usable bandwidth }
    requires is_location { i < problem.now.setup.n }
    ensures { result ≡ solve_location problem.now.setup problem.now.columns bandwidth i }
{
    let b = neighbours::local_bandwidth_distance(problem.coords(), i, bandwidth);
    solve_local(problem, i, b)
}
