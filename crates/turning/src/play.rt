// A job fitted uninterrupted and under lists of turns.
ghost use Rattle.std.specs.Prelude.{◌≤◌};

use crate::lend::Given;
use crate::made::Case;
use crate::seed::Seed;
use crate::tally::Tally;
use crate::{compare, lend};
use criterion::Summary;
use gwr::Fit;
use job::{Answer, Turned};
use refusal::Refusal;
use setup::{Columns, GwrOptions};
use stepping::Job;
use sweep::Finish;

// After a turn: whether its output is that of the record that follows, and that of the uninterrupted fit, and the steps so far.
// The flags are outcomes of comparisons, and no value depends on them.
#[derive(Clone, Copy)]
struct Seen {
    beside: bool,
    rows: bool,
    steps: u32,
}

// A job that has begun: its first record and the columns of its data, and the end and the output of its uninterrupted fit. Some turns
// are lent bad trusts where `spoils`, a flag that decides no other field.
#[derive(Clone, Copy)]
struct Begun<'a> {
    first: Job,
    columns: &'a Columns<'a>,
    ending: Finish,
    rows: &'a [f64],
    spoils: bool,
}

// The uninterrupted fit of a case, and four lists of turns that are to end as it does.
pub fn play_case(c: Case, spoils: bool, t: &mut Tally)
    requires { (c.n ≤ 10) × (c.p ≤ 2) }
{
    let columns = Columns {
        coords: &c.coords[..2 * c.n],
        predictors: &c.x[..c.n * c.p],
        responses: &c.y[..c.n],
        trusts: &c.trust[..c.n],
    };
    play_columns(&columns, c.p, c.options, c.seed, spoils, t);
}

// The output has 100 numbers: those past the rows are watched too.
fn play_columns(
    columns: &Columns<'_>,
    p: usize,
    options: GwrOptions,
    seed: Seed,
    spoils: bool,
    t: &mut Tally,
) {
    let mut rows = [0.5; 100];
    let ending = ending_of(gwr::gwr_fit(columns, p, options, &mut rows));
    t.fitted(ending.refusal);
    match starting::begin(columns, p, options, &rows) {
        Ok(first) => {
            let begun = Begun {
                first,
                columns,
                ending,
                rows: &rows,
                spoils,
            };
            play_lists(begun, seed, t);
        }
        Err(r) => t.expect(ending.refusal == Some(r)),
    }
}

// How a fit ended, as one record to compare with. Only refused fits have the numbers 1 to 13 and 26, and they have no summary.
fn ending_of(fit: Result<Fit, Refusal>) -> Finish {
    match fit {
        Ok(fit) => fit.finish,
        Err(r) => Finish {
            refusal: Some(r),
            summary: Summary::failed(0),
        },
    }
}

fn play_lists(b: Begun<'_>, seed: Seed, t: &mut Tally) {
    let mut at = seed;
    // So many times: nothing is indexed.
    for _ in 0..4 {
        at = at.next();
        play_list(b, at, &mut *t);
    }
}

// A list of turns. A second record follows it by steps of one, and a turn is given after the end.
fn play_list(b: Begun<'_>, seed: Seed, t: &mut Tally) {
    let mut at = seed;
    let mut played = b.first;
    let mut followed = b.first;
    let mut out = [0.5; 100];
    let mut beside = [0.5; 100];
    let mut steps = 0u32;
    t.listed();
    // Counted: k is the number of the turn.
    for k in 0..40u32 {
        at = at.next();
        let given = lend::give_turn(played, b.columns, &mut out, at, k, b.spoils);
        played = given.turned.job;
        steps = steps.wrapping_add(given.turned.steps);
        followed = follow(followed, b.columns, &mut beside, given.turned.steps);
        let seen = Seen {
            beside: compare::same_reals(&out, &beside),
            rows: compare::same_reals(&out, b.rows),
            steps,
        };
        account(given, followed, b.ending, seen, &mut *t);
    }
    let last = job::turn(played, b.columns, &mut out, u32::MAX);
    let same_out = compare::same_reals(&out, &beside);
    t.stood(last, played, Some(Refusal::AlreadyEnded), same_out);
}

// The record after so many turns of one step.
fn follow(j: Job, columns: &Columns<'_>, out: &mut [f64], steps: u32) -> Job {
    (0..steps).fold(j, |at, _| job::turn(at, columns, &mut *out, 1).job)
}

// What a turn answered, held to the record that followed it, to its expected refusal and, where it ended, to the uninterrupted fit.
fn account(given: Given, followed: Job, fit: Finish, seen: Seen, t: &mut Tally) {
    let turned = given.turned;
    t.answered(turned.answer);
    t.expect(seen.beside & compare::same_job(turned.job, followed));
    t.expect(answered_so(turned, given.want, fit, seen));
}

// Whether an answer is the one that is wanted.
fn answered_so(turned: Turned, want: Option<Refusal>, fit: Finish, seen: Seen) -> bool {
    match turned.answer {
        Answer::Working => want.is_none(),
        Answer::Refused(r) => (want == Some(r)) & (turned.steps == 0),
        Answer::Ended(f) => want.is_none() & ended_so(fit, f, seen),
    }
}

// Whether a list ended with the fit's refusal, rows and summary, and its turns made as many steps as the fit made solves. Reals by
// their bits, so not by derived equality.
fn ended_so(fit: Finish, f: Finish, seen: Seen) -> bool {
    let reals = compare::same_real(fit.summary.bandwidth, f.summary.bandwidth)
        & compare::same_real(fit.summary.aicc, f.summary.aicc);
    let solves = (f.summary.solves == fit.summary.solves) & (f.summary.solves == seen.steps as u64);
    (f.refusal == fit.refusal) & seen.rows & reals & solves
}
