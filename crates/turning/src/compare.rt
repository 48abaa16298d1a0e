// Whether two records, or two outputs, are the same.
//
// Reals are the same by their bits: as numbers a NaN is unequal to itself, and -0 equal to 0. So a record has an image, in which
// reals are their bits, and images are compared by derived equality. They are types of their own: the record's types would get a
// parameter, the type of a number, for this program's sake.
use golden::Bracket;
use kernel::GwrKernel;
use refusal::Refusal;
use setup::{GwrBandwidth, GwrCriterion};
use stepping::{Job, Stage};

// A real by its bits.
#[derive(Clone, Copy, PartialEq, Eq)]
struct Bits(u64);

impl From<f64> for Bits {
    fn from(x: f64) -> Self {
        Bits(wire::bits_of(x))
    }
}

pub fn same_real(a: f64, b: f64) -> bool {
    Bits::from(a) == Bits::from(b)
}

// Whether two slices have the same length and the same numbers.
pub fn same_reals(a: &[f64], b: &[f64]) -> bool {
    (a.len() == b.len()) & a.iter().zip(b).all(|(x, y)| same_real(*x, *y))
}

#[derive(Clone, Copy, PartialEq, Eq)]
enum BandwidthImage {
    Fixed(Bits),
    AdaptiveKnn(usize),
}

impl From<GwrBandwidth> for BandwidthImage {
    fn from(b: GwrBandwidth) -> Self {
        match b {
            GwrBandwidth::Fixed(d) => BandwidthImage::Fixed(Bits::from(d)),
            GwrBandwidth::AdaptiveKnn(k) => BandwidthImage::AdaptiveKnn(k),
        }
    }
}

#[derive(Clone, Copy, PartialEq, Eq)]
enum StageImage {
    First,
    Second,
    Round,
    Final,
    Ended(Result<Bits, Refusal>),
}

impl From<Stage> for StageImage {
    fn from(s: Stage) -> Self {
        match s {
            Stage::First => StageImage::First,
            Stage::Second => StageImage::Second,
            Stage::Round => StageImage::Round,
            Stage::Final => StageImage::Final,
            Stage::Ended(c) => StageImage::Ended(c.map(Bits::from)),
        }
    }
}

fn bracket_image(g: Bracket) -> [Bits; 9] {
    [g.a, g.b, g.c, g.d, g.h, g.fc, g.fd, g.best, g.low].map(Bits::from)
}

// The flag is the option that 000 has.
#[derive(Clone, Copy, PartialEq, Eq)]
struct JobImage {
    kernel: GwrKernel,
    criterion: GwrCriterion,
    optimize_bandwidth: bool,
    given: BandwidthImage,
    n: usize,
    p: usize,
    stage: StageImage,
    bracket: [Bits; 9],
    trials: usize,
    bandwidth: BandwidthImage,
    location: usize,
    trace: Bits,
    squares: Bits,
    solves: u64,
}

impl From<Job> for JobImage {
    fn from(j: Job) -> Self {
        let options = j.setup.options;
        JobImage {
            kernel: options.kernel,
            criterion: options.criterion,
            optimize_bandwidth: options.optimize_bandwidth,
            given: BandwidthImage::from(options.bandwidth),
            n: j.setup.n,
            p: j.setup.p,
            stage: StageImage::from(j.stage),
            bracket: bracket_image(j.trials.bracket),
            trials: j.trials.made,
            bandwidth: BandwidthImage::from(j.bandwidth),
            location: j.sweep.location,
            trace: Bits::from(j.sweep.trace),
            squares: Bits::from(j.sweep.squares),
            solves: j.solves,
        }
    }
}

// Whether two records are the same.
pub fn same_job(a: Job, b: Job) -> bool {
    JobImage::from(a) == JobImage::from(b)
}
