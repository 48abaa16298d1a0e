// A fit in turns: each turn makes as many steps of it as it is allowed.
// Limits of sizes, and room for rows, are clauses: docs/DECISIONS.md says why.
#![tactic(auto)]

mod turns; // the refusals of a turn, and its run of steps

use refusal::Refusal;
use stepping::Job;
use sweep::Finish;
pub use turns::turn;

// What a turn answers. Only `Refused` is a refused turn. Not a Result: there are three states, and the record comes back in each.
#[derive(Clone, Copy)]
pub enum Answer {
    Working,
    Ended(Finish),
    Refused(Refusal),
}

#[derive(Clone, Copy)]
pub struct Turned {
    pub answer: Answer,
    pub steps: u32,
    pub job: Job,
}
