// The weights of the observations, seen from a place.
#![tactic(auto)]

ghost use Rattle.std.specs.Prelude.{◌≡◌, replicate};
ghost use Rattle.real.specs.Reals.{zero64};
ghost use Rattle.weights.specs.Weights.{weights_from};

use kernel::Place;
use setup::Problem;

mod near;

// The weight of each observation seen from the place, its trust included, in order, into w, which is handed over as zeros; answers
// their sum. An array with room for 512, the most observations, since no heap is used.
pub fn weigh(problem: &Problem<'_>, place: Place, b: f64, w: &mut [f64; 512]) -> f64
    requires zeros { w.old ≡ replicate 512 zero64 }
    ensures { (w.new, result) ≡ weights_from problem.now.setup problem.now.columns place.east place.north b }
{
    let coords = problem.coords();
    let trusts = problem.trusts();
    let kernel = problem.setup().options.kernel;
    match kernel.reach(b) {
        Some(reach) => near::weigh_within(coords, trusts, kernel, place, b, reach, w),
        None => near::weigh_all(coords, trusts, kernel, place, b, w),
    }
}
