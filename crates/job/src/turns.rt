// The refusals of a turn in order, and its run of steps.
ghost use Rattle.std.specs.Prelude.{◌≡◌, ◌+◌, ◌*◌, ◌≤◌, length};
ghost use Rattle.setup.specs.Bandwidth.{Usable};
ghost use Rattle.setup.specs.Shape.{Sized};
ghost use Rattle.checks.specs.Judge.{judge};
ghost use Rattle.stepping.specs.Sound.{Sound};
ghost use Rattle.job.specs.Turn.{lent_tests, turn_tests, answer_at, tell_of, run_of, turn_of};

use super::{Answer, Turned};
use fitness::is_fit;
use refusal::Refusal;
use setup::{Columns, Problem, Setup};
use stepping::{Job, Stage};

// Refusal 21, then 8, 9, 10, 26 and 13, of what a turn is lent. Which of 8 to 26 is met is asked only where one is: the data were good
// when the job began.
#[tactic(auto, using(checks::proofs::Judge::judge_append, input::proofs::Observations::values_pass, input::proofs::Meanings::lengths_fit_means), unfolding(crate::specs::Turn::lent_tests, checks::specs::Judge::judge, checks::specs::Judge::ruled))]
fn check_lent(columns: &Columns<'_>, u: Setup, out: usize) -> Result<(), Refusal>
    requires { Sized u }
    ensures { result ≡ judge (lent_tests u columns.now out) }
{
    if !input::lengths_fit(columns, u) {
        return Err(Refusal::LengthsDiffer);
    }
    if !input::values_good(columns) {
        input::check_values(columns)?;
    }
    input::check_room(u, out)
}

// The refusals of a turn in order.
#[tactic(auto, unfolding(crate::specs::Turn::turn_tests, checks::specs::Judge::judge))]
fn check_turn(j: Job, columns: &Columns<'_>, out: usize) -> Result<(), Refusal>
    ensures { result ≡ judge (turn_tests j columns.now out) }
{
    if !is_fit(j) {
        return Err(Refusal::UnfitRecord);
    }
    if j.stage.is_ended() {
        return Err(Refusal::AlreadyEnded);
    }
    check_lent(columns, j.setup, out)
}

// What a job at this stage says of itself.
fn answer_at(stage: Stage, j: Job) -> Answer
    requires { Usable j.bandwidth }
    ensures { result ≡ answer_at stage j }
{
    match stage {
        Stage::Ended(ending) => Answer::Ended(sweep::finish_of(ending, j.bandwidth, j.solves)),
        _ => Answer::Working,
    }
}

// The answer of a turn that made so many steps.
fn tell(j: Job, steps: u32) -> Turned
    requires { Usable j.bandwidth }
    ensures { result ≡ tell_of j steps }
{
    Turned {
        answer: answer_at(j.stage, j),
        steps,
        job: j,
    }
}

// Steps until the allowance is spent or the job ends.
fn run(j: Job, problem: &Problem<'_>, out: &mut [f64], allowance: u32) -> Turned
    requires sound { Sound 0 j }
    requires own { problem.now.setup ≡ j.setup }
    requires room { j.setup.n * (j.setup.p + 4) ≤ length out.old }
    ensures { (result, out.new) ≡ run_of j problem.now.columns out.old allowance }
{
    let mut k = j;
    // Counted, not indexed: `Turned` says how many steps were made.
    for made in 0..allowance {
        if k.stage.is_ended() {
            return tell(k, made);
        }
        k = k.step(problem, &mut *out);
    }
    tell(k, allowance)
}

// A turn: refused, or as many steps as the allowance and the end allow.
#[tactic(auto, using(crate::proofs::Turning::turn_passed, crate::proofs::Turning::turn_usable, crate::proofs::Turning::run_none), unfolding(crate::specs::Turn::turn_of, checks::specs::Judge::ruled))]
pub fn turn(j: Job, columns: &Columns<'_>, out: &mut [f64], allowance: u32) -> Turned
    ensures { (result, out.new) ≡ turn_of j columns.now out.old allowance }
{
    match check_turn(j, columns, out.len()) {
        Err(r) => Turned {
            answer: Answer::Refused(r),
            steps: 0,
            job: j,
        },
        // No problem is posed for no step, which would cost the shortest turn a quarter of its time.
        Ok(()) if allowance == 0 => tell(j, 0),
        Ok(()) => run(j, &Problem::pose(j.setup, columns), out, allowance),
    }
}
