// What was counted.
use crate::compare;
use job::{Answer, Turned};
use refusal::Refusal;
use stepping::Job;

#[derive(Drop)]
pub struct Tally {
    pub jobs: u64,
    pub lists: u64,
    pub turns: u64,
    pub differences: u64,
    // Refusals by number, from 1 to 99, in arrays, since there is no heap for a map: of beginning and of the uninterrupted fit, and of
    // turns; at 0 what ended well.
    pub fits: [u64; 100],
    pub turned: [u64; 100],
}

// One more with this refusal, or with none.
fn count(counts: &mut [u64; 100], refusal: Option<Refusal>) {
    let number = refusal.map_or(0, |r| r.number());
    if let Some(c) = counts.get_mut(number as usize) {
        *c = c.saturating_add(1);
    }
}

// Whether a turn that makes no step answers so: working where no refusal is wanted.
fn stands_so(answer: Answer, want: Option<Refusal>) -> bool {
    match answer {
        Answer::Working => want.is_none(),
        Answer::Refused(r) => want == Some(r),
        Answer::Ended(_) => false,
    }
}

impl Tally {
    pub fn new() -> Self {
        Tally {
            jobs: 0,
            lists: 0,
            turns: 0,
            differences: 0,
            fits: [0; 100],
            turned: [0; 100],
        }
    }

    // A comparison, which counts where it fails.
    pub fn expect(&mut self, same: bool) {
        if !same {
            self.differences = self.differences.saturating_add(1);
        }
    }

    // A turn that is to answer so, to make no step and to change neither the record nor the output.
    pub fn stood(&mut self, turned: Turned, before: Job, want: Option<Refusal>, same_out: bool) {
        let same = compare::same_job(turned.job, before) & same_out;
        let right = stands_so(turned.answer, want) & (turned.steps == 0);
        self.answered(turned.answer);
        self.expect(same & right);
    }

    pub fn listed(&mut self) {
        self.lists = self.lists.saturating_add(1);
    }

    pub fn fitted(&mut self, refusal: Option<Refusal>) {
        self.jobs = self.jobs.saturating_add(1);
        count(&mut self.fits, refusal);
    }

    // A turn after which the job works on counts with no number.
    pub fn answered(&mut self, answer: Answer) {
        self.turns = self.turns.saturating_add(1);
        match answer {
            Answer::Working => (),
            Answer::Refused(r) => count(&mut self.turned, Some(r)),
            Answer::Ended(f) => count(&mut self.turned, f.refusal),
        }
    }
}
