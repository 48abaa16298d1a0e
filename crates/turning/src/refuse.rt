// Records at the limits of what is fit: a turn must refuse those beyond them with 19.
use crate::compare;
use crate::tally::Tally;
use golden::Bracket;
use kernel::GwrKernel;
use refusal::Refusal;
use setup::{Columns, GwrBandwidth, GwrOptions, Setup};
use stepping::{Job, Stage, Trials};
use sweep::Sweep;

// A record, and the refusal that a turn with no allowance on it must answer, if any.
#[derive(Clone, Copy)]
struct Row {
    job: Job,
    want: Option<Refusal>,
}

const UNFIT: Option<Refusal> = Some(Refusal::UnfitRecord);

const OTHER: Option<Refusal> = Some(Refusal::LengthsDiffer);

const ENDED: Option<Refusal> = Some(Refusal::AlreadyEnded);

const DISTANCE: GwrBandwidth = GwrBandwidth::Fixed(2.0);

const END: Stage = Stage::Ended(Ok(1.0));

fn count(k: usize) -> GwrBandwidth {
    GwrBandwidth::AdaptiveKnn(k)
}

// A final fit of these sizes at this location, by options of one bandwidth and at another.
fn shaped(
    n: usize,
    p: usize,
    location: usize,
    kind: GwrBandwidth,
    bandwidth: GwrBandwidth,
    want: Option<Refusal>,
) -> Row {
    let options = GwrOptions::unguarded(GwrKernel::Gaussian, kind, true);
    let job = Job {
        setup: Setup { options, n, p },
        stage: Stage::Final,
        trials: Trials {
            bracket: Bracket::none(),
            made: 3,
        },
        bandwidth,
        sweep: Sweep {
            location,
            trace: 0.0,
            squares: 0.0,
        },
        solves: 14,
    };
    Row { job, want }
}

// A job of four observations and one predictor, at location 2, by a distance.
fn tried(stage: Stage, trials: usize, solves: u64, want: Option<Refusal>) -> Row {
    let mut row = shaped(4, 1, 2, DISTANCE, DISTANCE, want);
    row.job.stage = stage;
    row.job.trials.made = trials;
    row.job.solves = solves;
    row
}

// Sizes and location, which may be fit and not those of the data lent; a bandwidth of the other kind, or a count out of range.
fn shape_rows() -> [Row; 14] {
    [
        shaped(513, 1, 2, DISTANCE, DISTANCE, UNFIT),
        shaped(0, 0, 0, DISTANCE, DISTANCE, UNFIT),
        shaped(4, 4, 2, DISTANCE, DISTANCE, UNFIT),
        shaped(4, 8, 2, DISTANCE, DISTANCE, UNFIT),
        shaped(4, 1, 3, DISTANCE, DISTANCE, None),
        shaped(4, 1, 4, DISTANCE, DISTANCE, UNFIT),
        shaped(5, 1, 2, DISTANCE, DISTANCE, OTHER),
        shaped(4, 3, 2, DISTANCE, DISTANCE, OTHER),
        shaped(4, 1, 2, count(3), DISTANCE, UNFIT),
        shaped(4, 1, 2, DISTANCE, count(3), UNFIT),
        shaped(4, 1, 2, count(3), count(513), UNFIT),
        shaped(4, 1, 2, count(3), count(0), UNFIT),
        shaped(4, 1, 2, count(3), count(512), None),
        shaped(4, 1, 2, count(3), count(1), None),
    ]
}

// Trials that a stage can have, and cannot; solves that trials and location allow, one more once the job has ended.
fn trial_rows() -> [Row; 18] {
    [
        tried(Stage::First, 0, 2, None),
        tried(Stage::First, 1, 2, UNFIT),
        tried(Stage::Second, 0, 2, UNFIT),
        tried(Stage::Second, 1, 2, None),
        tried(Stage::Second, 2, 2, UNFIT),
        tried(Stage::Round, 1, 2, UNFIT),
        tried(Stage::Round, 2, 2, None),
        tried(Stage::Round, 101, 2, None),
        tried(Stage::Round, 102, 2, UNFIT),
        tried(Stage::Final, 0, 2, None),
        tried(Stage::Final, 102, 2, None),
        tried(Stage::Final, 103, 2, UNFIT),
        tried(Stage::Final, 3, 14, None),
        tried(Stage::Final, 3, 15, UNFIT),
        tried(END, 3, 15, ENDED),
        tried(END, 3, 16, UNFIT),
        tried(END, 102, 2, ENDED),
        tried(END, 103, 2, UNFIT),
    ]
}

// A turn on the record answers as is wanted, and moves nothing.
fn judge(row: Row, t: &mut Tally) {
    let columns = Columns {
        coords: &[0.0, 0.0, 1.0, 0.0, 0.0, 2.0, 3.0, 3.0],
        predictors: &[1.0, 2.0, 4.0, 7.0],
        responses: &[2.0, 3.0, 5.0, 9.0],
        trusts: &[1.0; 4],
    };
    let before = [0.5; 24];
    let mut out = before;
    let turned = job::turn(row.job, &columns, &mut out, 0);
    t.stood(
        turned,
        row.job,
        row.want,
        compare::same_reals(&out, &before),
    );
}

pub fn refuse_unfit(t: &mut Tally) {
    for row in shape_rows() {
        judge(row, &mut *t);
    }
    for row in trial_rows() {
        judge(row, &mut *t);
    }
}
