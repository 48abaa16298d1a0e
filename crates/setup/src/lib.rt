// What a job is: its bandwidth, its options, and its sizes. None of these changes while it is worked.
//
// No type but `Sample` and `Problem` says that sizes fit, and none that a bandwidth is usable: a bandwidth or a size that is handed
// over may be anything, and is refused with its number. Behind the checks what is known of them is a clause: `Setup` is a part of the
// record, which may be unfit.
#![tactic(auto)]

ghost use Rattle.std.specs.Prelude.{◌≡◌};
ghost use Rattle.setup.specs.Bandwidth.{Usable, report_value};
ghost use Rattle.setup.specs.Options.{unguarded, default_options, judged_by};

use kernel::GwrKernel;

mod problem;

pub use problem::{Columns, Problem, Sample};

// 000's bandwidth: a distance, or a number of neighbours.
#[derive(Clone, Copy, PartialEq, Debug)]
pub enum GwrBandwidth {
    Fixed(f64),
    AdaptiveKnn(usize),
}

impl GwrBandwidth {
    // The number that a summary reports: the distance, or the count as a real. No `From`, since it asks for a usable one.
    pub fn report_value(self) -> f64
        requires { Usable self }
        ensures { result ≡ report_value self }
    {
        match self {
            GwrBandwidth::Fixed(b) => b,
            GwrBandwidth::AdaptiveKnn(k) => real::from_count(k),
        }
    }
}

// How AICc is judged where more is spent than the degrees of freedom: worked as it falls, as in 000, or plus infinity.
#[derive(Clone, Copy, PartialEq, Eq, Debug)]
pub enum GwrCriterion {
    Unguarded,
    Guarded,
}

// 000's options, a flag among them, and the criterion.
#[derive(Clone, Copy, PartialEq, Debug)]
pub struct GwrOptions {
    pub kernel: GwrKernel,
    pub bandwidth: GwrBandwidth,
    pub optimize_bandwidth: bool,
    pub criterion: GwrCriterion,
}

impl GwrOptions {
    // What 000's options say.
    pub fn unguarded(kernel: GwrKernel, bandwidth: GwrBandwidth, optimize_bandwidth: bool) -> Self
        ensures { result ≡ unguarded kernel bandwidth optimize_bandwidth }
    {
        GwrOptions {
            kernel,
            bandwidth,
            optimize_bandwidth,
            criterion: GwrCriterion::Unguarded,
        }
    }

    // The same judged by another criterion.
    pub fn judged_by(self, criterion: GwrCriterion) -> Self
        ensures { result ≡ judged_by criterion self }
    {
        GwrOptions { criterion, ..self }
    }
}

// Bisquare, count 0, no search.
impl Default for GwrOptions {
    ghost is_default = { λ o. o ≡ default_options };

    fn default() -> Self {
        let kernel = GwrKernel::Bisquare;
        let bandwidth = GwrBandwidth::AdaptiveKnn(0);
        GwrOptions::unguarded(kernel, bandwidth, false)
    }
}

// The options, n observations and p predictors of a job.
#[derive(Clone, Copy)]
pub struct Setup {
    pub options: GwrOptions,
    pub n: usize,
    pub p: usize,
}
