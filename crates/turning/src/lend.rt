// One turn of a list, some of which are lent what they must refuse.
use crate::seed::Seed;
use job::Turned;
use refusal::Refusal;
use setup::Columns;
use stepping::Job;

// A turn, and the refusal that it must answer, if any.
#[derive(Clone, Copy)]
pub struct Given {
    pub turned: Turned,
    pub want: Option<Refusal>,
}

// The allowance of a turn: zero, one, a few, many, or all that there are. By a number, since a seed draws it.
fn allowance_of(seed: Seed, k: u32) -> u32 {
    if 36 < k {
        return u32::MAX;
    }
    let few = seed.next().draw(12) as u32;
    match seed.draw(24) {
        0..=3 => 0,
        4..=11 => 1,
        12..=15 => few + 2,
        16..=19 => 40,
        20 => u32::MAX,
        _ => few,
    }
}

// What a turn is lent.
#[derive(Clone, Copy, PartialEq, Eq)]
enum Kind {
    // The job's own.
    Plain,
    NoResponses,
    NoCoordinates,
    NoOutput,
    BadResponse,
    BadCoordinate,
    BadPredictor,
    // One predictor too few or, where there is none, some too many.
    OtherPredictors,
    TrustAboveOne,
    TrustNan,
    NoTrusts,
    // More than there are observations.
    ManyTrusts,
    TrustNanNoOutput,
}

// The kinds that are drawn; the last five spoil trusts.
const KINDS: [Kind; 12] = [
    Kind::NoResponses,
    Kind::NoCoordinates,
    Kind::NoOutput,
    Kind::BadResponse,
    Kind::BadCoordinate,
    Kind::BadPredictor,
    Kind::OtherPredictors,
    Kind::TrustAboveOne,
    Kind::TrustNan,
    Kind::NoTrusts,
    Kind::ManyTrusts,
    Kind::TrustNanNoOutput,
];

// Which turn this is: the last one of a list is a plain one, and only lists that spoil trusts have the kinds that do. Where there is no
// predictor to spoil, no output is lent.
fn kind_of(seed: Seed, k: u32, spoils: bool, x: &[f64]) -> Kind {
    let at = seed.next().draw(24) as usize;
    let kinds = if spoils { 12 } else { 7 };
    if (38 < k) | (kinds <= at) {
        return Kind::Plain;
    }
    let kind = KINDS.get(at).copied().unwrap_or(Kind::Plain);
    if (kind == Kind::BadPredictor) & x.is_empty() {
        Kind::NoOutput
    } else {
        kind
    }
}

impl Kind {
    // How many numbers of a column are lent: none by turns of one kind.
    fn count(self, lacks: Kind, column: &[f64]) -> usize {
        if self == lacks { 0 } else { column.len() }
    }

    // How many predictors are lent.
    fn predictors(self, columns: &Columns<'_>) -> usize {
        match self {
            Kind::OtherPredictors => {
                if columns.predictors.is_empty() {
                    columns.responses.len()
                } else {
                    columns.predictors.len() - 1
                }
            }
            _ => columns.predictors.len(),
        }
    }

    // How many trusts are lent.
    fn trusts(self, columns: &Columns<'_>) -> usize {
        match self {
            Kind::NoTrusts => 0,
            Kind::ManyTrusts => 12,
            _ => columns.trusts.len(),
        }
    }

    fn lends_output(self) -> bool {
        (self != Kind::NoOutput) & (self != Kind::TrustNanNoOutput)
    }

    // What the last number of a slice is replaced with by turns of one kind.
    fn bad(self, spoils: Kind, v: f64) -> Option<f64> {
        (self == spoils).then_some(v)
    }

    // What the last trust is replaced with.
    fn bad_trust(self) -> Option<f64> {
        match self {
            Kind::TrustAboveOne => Some(1.0000000000000002),
            Kind::TrustNan | Kind::TrustNanNoOutput => Some(f64::NAN),
            _ => None,
        }
    }

    // The refusal of a turn of this kind.
    fn refusal(self) -> Option<Refusal> {
        match self {
            Kind::Plain => None,
            Kind::NoResponses
            | Kind::NoCoordinates
            | Kind::OtherPredictors
            | Kind::NoTrusts
            | Kind::ManyTrusts => Some(Refusal::LengthsDiffer),
            Kind::NoOutput => Some(Refusal::OutputTooShort),
            Kind::BadResponse => Some(Refusal::ResponseNotFinite),
            Kind::BadCoordinate => Some(Refusal::CoordinateNotFinite),
            Kind::BadPredictor => Some(Refusal::PredictorNotFinite),
            Kind::TrustAboveOne | Kind::TrustNan | Kind::TrustNanNoOutput => {
                Some(Refusal::TrustOutOfRange)
            }
        }
    }
}

// Copies the numbers of a slice to the start of another, the last one replaced where it is to be spoiled.
fn lend(from: &[f64], to: &mut [f64], last: Option<f64>) {
    let n = from.len().min(to.len());
    to[..n].copy_from_slice(&from[..n]);
    if let (Some(bad), Some(slot)) = (last, to[..n].last_mut()) {
        *slot = bad;
    }
}

// A turn of this kind, lent what it is to be lent in arrays of fixed room, since there is no heap.
fn turn_of(kind: Kind, j: Job, columns: &Columns<'_>, out: &mut [f64], allowance: u32) -> Turned {
    let mut coords = [0.0; 24];
    let mut x = [0.0; 36];
    let mut y = [0.0; 12];
    let mut trust = [0.0; 12];
    lend(
        columns.coords,
        &mut coords,
        kind.bad(Kind::BadCoordinate, f64::INFINITY),
    );
    lend(
        columns.predictors,
        &mut x,
        kind.bad(Kind::BadPredictor, f64::NAN),
    );
    lend(
        columns.responses,
        &mut y,
        kind.bad(Kind::BadResponse, f64::NAN),
    );
    lend(columns.trusts, &mut trust, kind.bad_trust());
    let out_end = if kind.lends_output() { out.len() } else { 0 };
    let lent = Columns {
        coords: &coords[..kind.count(Kind::NoCoordinates, columns.coords).min(24)],
        predictors: &x[..kind.predictors(columns).min(36)],
        responses: &y[..kind.count(Kind::NoResponses, columns.responses).min(12)],
        trusts: &trust[..kind.trusts(columns).min(12)],
    };
    job::turn(j, &lent, &mut out[..out_end], allowance)
}

// Turn k of a list.
pub fn give_turn(
    j: Job,
    columns: &Columns<'_>,
    out: &mut [f64],
    seed: Seed,
    k: u32,
    spoils: bool,
) -> Given {
    let kind = kind_of(seed, k, spoils, columns.predictors);
    let want = if j.stage.is_ended() {
        Some(Refusal::AlreadyEnded)
    } else {
        kind.refusal()
    };
    let turned = turn_of(kind, j, columns, out, allowance_of(seed, k));
    Given { turned, want }
}
