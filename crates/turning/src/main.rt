// Fits jobs of its own making uninterrupted and in turns, compares the two, hands `turn` records and slices that it must refuse,
// and prints counts.
#![tactic(auto)]

mod compare;
mod lend;
mod made;
mod play;
mod refuse;
mod report;
mod seed;
mod tally;
mod trusts;

use seed::Seed;
use setup::GwrCriterion;
use std::io;
use tally::Tally;
use trusts::{SORTS, Sort};

// The sort of job k's trusts: all 1, or every sort in turn, each for as many jobs as there are kernels and kinds.
fn sort_of(k: u64, trusted: bool) -> Sort {
    if trusted {
        SORTS[(k / 12 % 12) as usize]
    } else {
        SORTS[0]
    }
}

// So many jobs by this criterion, with trusts of every sort, which turns may spoil, or, where the flag is not set, all of them 1.
fn play_all(criterion: GwrCriterion, jobs: u64, trusted: bool) -> Tally {
    let mut t = Tally::new();
    let mut seed = Seed::first();
    // Counted: k is the number of the job.
    for k in 0..jobs {
        seed = seed.next();
        let case = made::make_case(seed, k, criterion, sort_of(k, trusted));
        play::play_case(case, trusted, &mut t);
    }
    t
}

fn main(rt: HostRuntime) -> io::Result<()> {
    let mut unguarded = play_all(GwrCriterion::Unguarded, 400, false);
    refuse::refuse_unfit(&mut unguarded);
    report::print(&rt, &unguarded)?;
    report::title(&rt, "guarded")?;
    report::print(&rt, &play_all(GwrCriterion::Guarded, 400, false))?;
    report::title(&rt, "trusted")?;
    report::print(&rt, &play_all(GwrCriterion::Unguarded, 1440, true))
}
