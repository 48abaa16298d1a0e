// The job record, and its step: a fit that is made a local solve at a time.
// Limits of sizes, and room for rows, are clauses: docs/DECISIONS.md says why.
#![tactic(auto)]

ghost use Rattle.std.specs.Prelude.{◌≡◌, ◌+◌, ◌*◌, ◌≤◌, length};
ghost use Rattle.stepping.specs.Step.{is_ended, is_final, ended_solve, fresh_job, next_sweep, close_first, close_second, close_round, is_last_round, end_job, close_job, solved_job, pass_job, after_outcome, step_of};
ghost use Rattle.stepping.specs.Sound.{Sound};

use golden::Bracket;
use local::Solved;
use refusal::Refusal;
use setup::{GwrBandwidth, Problem, Setup};
use sweep::Sweep;

// What a job is at: its first trial, its second, a round's, its final fit; or it has ended.
#[derive(Clone, Copy)]
pub enum Stage {
    First,
    Second,
    Round,
    Final,
    Ended(Result<f64, Refusal>),
}

impl Stage {
    // Whether a job at this stage has ended.
    pub fn is_ended(self) -> bool
        ensures { result ≡ is_ended self }
    {
        matches!(self, Stage::Ended(_))
    }

    // Whether its solves write rows.
    fn is_final(self) -> bool
        ensures { result ≡ is_final self }
    {
        matches!(self, Stage::Final)
    }

    // The solve that a job has made of its location: one once it has ended.
    pub fn ended_solve(self) -> u64
        ensures { result ≡ ended_solve self }
    {
        u64::from(self.is_ended())
    }
}

// The search so far: the bracket, and how many trials were made.
#[derive(Clone, Copy)]
pub struct Trials {
    pub bracket: Bracket,
    pub made: usize,
}

// The job record. It has no invariant: a lent one may be anything, 19 refuses what is not fit, and `Sound` is asked of the others.
#[derive(Clone, Copy)]
pub struct Job {
    pub setup: Setup,
    pub stage: Stage,
    pub trials: Trials,
    pub bandwidth: GwrBandwidth,
    pub sweep: Sweep,
    pub solves: u64,
}

impl Job {
    // A job that has made nothing yet.
    pub fn fresh(setup: Setup, stage: Stage, bracket: Bracket, bandwidth: GwrBandwidth) -> Self
        ensures { result ≡ fresh_job setup stage bracket bandwidth }
    {
        Job {
            setup,
            stage,
            trials: Trials { bracket, made: 0 },
            bandwidth,
            sweep: Sweep::new(),
            solves: 0,
        }
    }

    // After a trial: the next sweep is at a point, its location and sums at zero.
    fn next_sweep(self, stage: Stage, bracket: Bracket, point: f64) -> Self
        requires { Sound 1 self }
        ensures { result ≡ next_sweep self stage bracket point }
    {
        let made = self.trials.made + 1;
        Job {
            stage,
            trials: Trials { bracket, made },
            bandwidth: bounds::bandwidth_at(self.setup, point),
            sweep: Sweep::new(), // no sum of a trial outlives it, failed or not
            ..self
        }
    }

    // The first trial has its score.
    fn close_first(self, score: f64) -> Self
        requires { Sound 1 self }
        ensures { result ≡ close_first self score }
    {
        let g = self.trials.bracket;
        self.next_sweep(Stage::Second, g.first(score), g.d)
    }

    // The second trial has its score.
    fn close_second(self, score: f64) -> Self
        requires { Sound 1 self }
        ensures { result ≡ close_second self score }
    {
        let g = self.trials.bracket;
        let next = g.second(score);
        self.next_sweep(Stage::Round, next, next.aim())
    }

    // A round's trial has its score: the final fit follows the hundredth round, or a bracket too narrow to go on.
    fn close_round(self, score: f64) -> Self
        requires { Sound 1 self }
        ensures { result ≡ close_round self score }
    {
        let g = self.trials.bracket;
        let next = g.narrow(score);
        if is_last_round(self.trials.made, next) {
            self.next_sweep(Stage::Final, next, next.best)
        } else {
            self.next_sweep(Stage::Round, next, next.aim())
        }
    }

    // The job ends; it keeps the location of its last solve.
    fn end(self, ending: Result<f64, Refusal>) -> Self
        ensures { result ≡ end_job self ending }
    {
        Job {
            stage: Stage::Ended(ending),
            ..self
        }
    }

    // A sweep is over.
    #[tactic(auto, unfolding(crate::specs::Step::close_job))]
    fn close(self, ending: Result<f64, Refusal>) -> Self
        requires { Sound 1 self }
        ensures { result ≡ close_job self ending }
    {
        match self.stage {
            Stage::First => self.close_first(criterion::score_of(ending)),
            Stage::Second => self.close_second(criterion::score_of(ending)),
            Stage::Round => self.close_round(criterion::score_of(ending)),
            Stage::Final => self.end(ending),
            Stage::Ended(_) => self,
        }
    }

    // One solve more, and the sweep so far.
    fn solved(mut self, sweep: Sweep) -> Self
        requires { Sound 0 self }
        ensures { result ≡ solved_job self sweep }
    {
        self.sweep = sweep;
        self.solves += 1;
        self
    }

    // The location solved: on to the next one, or the sweep is over.
    #[tactic(auto, unfolding(crate::specs::Step::pass_job))]
    fn pass(self, sweep: Sweep) -> Self
        requires sound { Sound 0 self }
        requires same_location { sweep.location ≡ self.sweep.location }
        ensures { result ≡ pass_job self sweep }
    {
        let setup = self.setup;
        if sweep.location + 1 == setup.n {
            let ending = criterion::corrected_aic(setup, sweep.squares, sweep.trace);
            return self.solved(sweep).close(ending);
        }
        self.solved(sweep.next())
    }

    // The job after a solve of its location.
    fn after_outcome(self, outcome: Result<Solved, Refusal>) -> Self
        requires { Sound 0 self }
        ensures { result ≡ after_outcome self outcome }
    {
        let sweep = self.sweep;
        match outcome {
            Ok(solved) => self.pass(sweep.add(solved.values)),
            Err(r) => self.solved(sweep).close(Err(r)),
        }
    }

    // One local solve.
    #[tactic(auto, unfolding(crate::specs::Step::step_of, crate::specs::Step::step_job, crate::specs::Step::step_out))]
    pub fn step(self, problem: &Problem<'_>, out: &mut [f64]) -> Self
        requires sound { Sound 0 self }
        requires own { problem.now.setup ≡ self.setup }
        requires room { self.setup.n * (self.setup.p + 4) ≤ length out.old }
        ensures { (result, out.new) ≡ step_of problem.now.columns (self, out.old) }
    {
        let u = self.setup;
        let i = self.sweep.location;
        let outcome = local::solve_location(problem, self.bandwidth, i);
        sweep::write_row(out, self.stage.is_final(), u, i, outcome);
        self.after_outcome(outcome)
    }
}

// Whether the search ends with this round.
fn is_last_round(made: usize, g: Bracket) -> bool
    ensures { result ≡ is_last_round made g }
{
    made == 101 || g.is_tight()
}
