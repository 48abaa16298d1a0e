// Weights without a root where nothing weighs: for speed alone.
ghost use Rattle.std.specs.Prelude.{◌≡◌};
ghost use Rattle.root.specs.Root.{root};
ghost use Rattle.kernel.specs.Weight.{weight_of};
ghost use Rattle.kernel.specs.Reach.{bisquare_reach, reach_of, Reach};

use crate::GwrKernel;

impl GwrKernel {
    // A sum of squares from which on nothing weighs under bandwidth b, so that no root is taken there; None where none is known.
    pub fn reach(self, b: f64) -> Option<f64>
        ensures { result ≡ reach_of self b }
    {
        match self {
            GwrKernel::Bisquare => bisquare_reach(b),
            GwrKernel::Gaussian | GwrKernel::Exponential => None,
        }
    }

    // The weight of an observation at the sum of squares s, for the reach of the kernel at bandwidth b.
    pub fn weight_within(self, s: f64, b: f64, reach: f64) -> f64
        requires { Reach self b reach }
        ensures { result ≡ weight_of self (root s) b }
    {
        if s >= reach {
            return 0.0;
        }
        self.weight(root::sqrt(s), b)
    }
}

// The square of a bandwidth in use, if the root of that square, taken here, reaches the bandwidth.
#[tactic(auto, unfolding(crate::specs::Reach::bisquare_reach, crate::specs::Weight::unusable))]
fn bisquare_reach(b: f64) -> Option<f64>
    ensures { result ≡ bisquare_reach b }
{
    if !real::is_finite(b) || b <= 0.0 {
        return None;
    }
    let c = b * b;
    if root::sqrt(c) >= b { Some(c) } else { None }
}
