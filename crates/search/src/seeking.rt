// 000's `golden_section_min`, whose scores are trials, and the bandwidth that it comes to.
ghost use Rattle.std.specs.Prelude.{ℕ, ◌≡◌, ◌*◌, ◌≤◌, false};
ghost use Rattle.setup.specs.Bandwidth.{Usable};
ghost use Rattle.search.specs.Memo.{Remembered};
ghost use Rattle.search.specs.Search.{round_of, opened_of, golden_of, optimize_bandwidth};

use super::memory::trial_of;
use super::{Optimum, Search, Tried};
use golden::Bracket;
use setup::Problem;

// The bracket's two inner points tried. That n is at most 512 is the problem's invariant, which a proof learns only where
// `setup` or `coords` is called.
#[tactic(auto, using(crate::proofs::Solves::trial_made), unfolding(crate::specs::Search::opened_of))]
fn opened_of(problem: &Problem<'_>, g: Bracket, tried: &mut [Option<Tried>; 102]) -> Search
    requires few { problem.now.setup.n ≤ 512 }
    requires remembered { Remembered problem.now.setup problem.now.columns tried.old }
    ensures value { result ≡ opened_of problem.now.setup problem.now.columns g }
    ensures still_remembered { Remembered problem.now.setup problem.now.columns tried.new }
{
    let first = trial_of(problem, g.c, &mut *tried);
    let second = trial_of(problem, g.d, tried);
    let half = g.first(first.score);
    let scored = half.second(second.score);
    Search {
        bracket: scored,
        over: false,
        solves: first.solves + second.solves,
    }
}

// One round of a search that is not over, whichever its number.
#[tactic(auto, using(crate::proofs::Solves::trial_made), unfolding(crate::specs::Search::round_of))]
fn round_of(s: Search, problem: &Problem<'_>, tried: &mut [Option<Tried>; 102]) -> Search
    requires few { problem.now.setup.n ≤ 512 }
    requires remembered { Remembered problem.now.setup problem.now.columns tried.old }
    requires going { s.over ≡ false }
    requires few_solves { s.solves ≤ 512 * 102 }
    ensures value { (r : ℕ) → result ≡ round_of problem.now.setup problem.now.columns r s }
    ensures still_remembered { Remembered problem.now.setup problem.now.columns tried.new }
{
    let g = s.bracket;
    let t = trial_of(problem, g.aim(), tried);
    let next = g.narrow(t.score);
    Search {
        bracket: next,
        over: next.is_tight(),
        solves: s.solves + t.solves,
    }
}

// 000's `golden_section_min` from lo to hi, lo below hi: two trials, then at most a hundred rounds of one.
fn golden_section_min(problem: &Problem<'_>, lo: f64, hi: f64) -> Search
    requires { problem.now.setup.n ≤ 512 }
    ensures { result ≡ golden_of problem.now.setup problem.now.columns lo hi }
{
    let mut tried = [None; 102];
    let g = Bracket::start(lo, hi);
    let mut s = opened_of(problem, g, &mut tried);
    // Counted, not indexed: a hundred rounds at most, and the count, which the proof alone reads, bounds the solves.
    for _round in 0..100usize {
        s = round_of(s, problem, &mut tried);
        if s.over {
            return s;
        }
    }
    s
}

// 000's `optimize_bandwidth` from lo to hi, two numbers as there: the bandwidth at the best point.
#[tactic(auto, using(crate::proofs::Solves::optimum_made), unfolding(crate::specs::Search::optimize_bandwidth))]
pub fn optimize_bandwidth(problem: &Problem<'_>, lo: f64, hi: f64) -> Optimum
    ensures value { result ≡ optimize_bandwidth problem.now.setup problem.now.columns lo hi }
    ensures usable { Usable result.bandwidth }
    ensures few_solves { result.solves ≤ 512 * 102 }
{
    let u = problem.setup();
    let s = golden_section_min(problem, lo, hi);
    let g = s.bracket;
    Optimum {
        bandwidth: bounds::bandwidth_at(u, g.best),
        solves: s.solves,
    }
}
