// Distance and kernel weight.
#![tactic(auto)]

ghost use Rattle.std.specs.Prelude.{◌≡◌, cond};
ghost use Rattle.std.specs.Float.Ieee.{eq};
ghost use Rattle.real.specs.Reals.{zero64, one64};
ghost use Rattle.real.specs.Arithmetic.{rounded};
ghost use Rattle.elementary.specs.Exp.{expv};
ghost use Rattle.kernel.specs.Published.{gaussian_formula, bisquare_formula};
ghost use Rattle.kernel.specs.Numbers.{kernel_of};
ghost use Rattle.kernel.specs.Weight.{weight_of, weighed};

mod place;
mod reaching;

pub use place::Place;
use refusal::Refusal;

// 000's three spatial kernels.
#[derive(Clone, Copy, PartialEq, Eq, Debug)]
pub enum GwrKernel {
    Gaussian,
    Bisquare,
    Exponential,
}

impl GwrKernel {
    // The weight of an observation at distance d under bandwidth b.
    #[tactic(auto, unfolding(crate::specs::Weight::weight_of, crate::specs::Weight::unusable, crate::specs::Published::gaussian_formula, crate::specs::Published::bisquare_formula, crate::specs::Published::exponential_formula))]
    pub fn weight(self, d: f64, b: f64) -> f64
        ensures { result ≡ weight_of self d b }
    {
        if !real::is_finite(b) || b <= 0.0 {
            return degenerate(d);
        }
        match self {
            GwrKernel::Gaussian => gaussian(d, b),
            GwrKernel::Bisquare => bisquare(d, b),
            GwrKernel::Exponential => elementary::exp(-d / b),
        }
    }
}

// The kernel of a number, as C and bytes have it: 0, 1 and 2 are known, and 18 refuses the others.
impl TryFrom<u64> for GwrKernel {
    type Error = Refusal;

    ghost try_from_gives = { λ number r. r ≡ kernel_of number };

    #[tactic(auto, unfolding(crate::specs::Numbers::kernel_of))]
    fn try_from(number: u64) -> Result<Self, Refusal> {
        match number {
            0 => Ok(GwrKernel::Gaussian),
            1 => Ok(GwrKernel::Bisquare),
            2 => Ok(GwrKernel::Exponential),
            _ => Err(Refusal::UnknownNumber),
        }
    }
}

// Under an unusable bandwidth only what stands at the very place weighs.
fn degenerate(d: f64) -> f64
    ensures { result ≡ cond (eq d zero64) one64 zero64 }
{
    if d == 0.0 { 1.0 } else { 0.0 }
}

fn gaussian(d: f64, b: f64) -> f64
    ensures { result ≡ gaussian_formula rounded expv d b }
{
    let r = d / b;
    elementary::exp((-0.5 * r) * r)
}

#[tactic(auto, unfolding(crate::specs::Published::bisquare_formula))]
fn bisquare(d: f64, b: f64) -> f64
    ensures { result ≡ bisquare_formula rounded d b }
{
    if d < b {
        let r = d / b;
        let t = 1.0 - r * r;
        t * t
    } else {
        0.0
    }
}

// The public weight call: every distance but a negative one and NaN has a weight.
pub fn weigh_distance(k: GwrKernel, d: f64, b: f64) -> Option<f64>
    ensures { result ≡ weighed k d b }
{
    if d >= 0.0 { Some(k.weight(d, b)) } else { None }
}
