// The bandwidth search: trials, each a sweep, and golden section over them.
#![tactic(auto)]

mod trials; // a trial at a bandwidth
mod memory; // trials remembered, so that none is worked twice
mod seeking; // golden section over the trials

use golden::Bracket;
pub use seeking::optimize_bandwidth;
use setup::GwrBandwidth;

// A trial's score, and the solves that it took.
#[derive(Clone, Copy)]
pub struct Trial {
    pub score: f64,
    pub solves: u64,
}

// A trial that was made: what tells its bandwidth, and what it gave.
#[derive(Clone, Copy)]
pub struct Tried {
    pub key: u64,
    pub trial: Trial,
}

// A search: its bracket, whether the bracket has become too narrow to go on, and the solves of all its trials.
#[derive(Clone, Copy)]
pub struct Search {
    pub bracket: Bracket,
    // A flag, not an Option: `golden_of` goes on while it is not set, as 000's search does, and the bracket is there in both cases.
    pub over: bool,
    pub solves: u64,
}

// The bandwidth that a search found, and its solves.
#[derive(Clone, Copy)]
pub struct Optimum {
    pub bandwidth: GwrBandwidth,
    pub solves: u64,
}
