// What makes the weights fast: no root beyond a kernel's reach; and where there is no reach all distances are guessed, then settled,
// then weighed by the kernel, then by their trusts, each in a loop of its own: a guess waits for divisions, and a call of exp takes
// what a loop keeps in registers. Coordinates and trusts come one by one, since nothing else of the problem is read, and a struct of
// the two would be made for one call.
ghost use Rattle.std.specs.Prelude.{◌≡◌, ◌*◌, ◌≤◌, length};
ghost use Rattle.kernel.specs.Reach.{Reach};
ghost use Rattle.weights.specs.Near.{near_distance, near_weights, kernel_over, Filled};

use kernel::{GwrKernel, Place};

// A guess at the distance of each observation from the place, into y. How near they come is not claimed.
fn guess_all(coords: &[f64], place: Place, y: &mut [f64])
    requires { 2 * length y.old ≤ length coords.now }
{
    // By numbers: `Place::at` reads both coordinates of one.
    for (j, d) in y.iter_mut().enumerate() {
        *d = place.guess_distance(Place::at(coords, j));
    }
}

// The distance of each observation from the place, into y, which holds guesses at them.
fn settle_all(coords: &[f64], place: Place, y: &mut [f64])
    requires { 2 * length y.old ≤ length coords.now }
    ensures { Filled (near_distance coords.now place.east place.north) (length y.new) y.new }
{
    // By numbers: a place is two of coords for one of y, and of what a zip writes a proof knows nothing afterwards.
    for (j, d) in y.iter_mut().enumerate() {
        *d = place.settle_distance(Place::at(coords, j), *d);
    }
}

// The kernel's weight at each distance, in its place.
fn kernel_all(kernel: GwrKernel, b: f64, y: &mut [f64])
    ensures { Filled (kernel_over kernel b y.old) (length y.new) y.new }
{
    for d in y.iter_mut() {
        *d = kernel.weight(*d, b);
    }
}

// The weight of each observation, its trust included, in order, into w; answers their sum. A function of its own for the compiler too,
// so that its array of distances stands on the stack only while it runs, and never where a kernel has a reach.
#[inline(never)]
pub fn weigh_all(
    coords: &[f64],
    trusts: &[f64],
    kernel: GwrKernel,
    place: Place,
    b: f64,
    w: &mut [f64; 512],
) -> f64
    requires { (length coords.now ≡ 2 * length trusts.now) × (length trusts.now ≤ 512) }
    ensures { (w.new, result) ≡ near_weights kernel coords.now trusts.now (length trusts.now) place.east place.north b w.old }
{
    let mut made = [0.0; 512];
    let y = &mut made[..trusts.len()];
    guess_all(coords, place, &mut *y);
    settle_all(coords, place, &mut *y);
    kernel_all(kernel, b, &mut *y);
    let mut sum = 0.0;
    // By numbers: of what a zip with distances and trusts writes a proof knows nothing afterwards.
    for (j, v) in w[..trusts.len()].iter_mut().enumerate() {
        *v = y[j] * trusts[j];
        sum += *v;
    }
    sum
}

// The same, for the reach of the kernel at bandwidth b: no root is taken beyond it. Apart from `weigh_all`, whose passes take every
// root before they weigh.
pub fn weigh_within(
    coords: &[f64],
    trusts: &[f64],
    kernel: GwrKernel,
    place: Place,
    b: f64,
    reach: f64,
    w: &mut [f64; 512],
) -> f64
    requires lengths { (length coords.now ≡ 2 * length trusts.now) × (length trusts.now ≤ 512) }
    requires reach { Reach kernel b reach }
    ensures { (w.new, result) ≡ near_weights kernel coords.now trusts.now (length trusts.now) place.east place.north b w.old }
{
    let mut sum = 0.0;
    // By numbers, as in `weigh_all`.
    for (j, v) in w[..trusts.len()].iter_mut().enumerate() {
        let s = place.squares(Place::at(coords, j));
        *v = kernel.weight_within(s, b, reach) * trusts[j];
        sum += *v;
    }
    sum
}
