// A location's bandwidth: the k-th smallest distance to the others, by one walk over the pantries.
//
// The walk gathers sums of squares. The root keeps order, so the k-th smallest of them gives the k-th smallest distance, with one
// root in all.
#![tactic(auto)]

ghost use Rattle.std.specs.Prelude.{◌≡◌, ◌+◌, ◌*◌, ◌/◌, ◌≤◌, ◌<◌, length};
ghost use Rattle.setup.specs.Bandwidth.{Usable};
ghost use Rattle.neighbours.specs.Walk.{nearest_from};
ghost use Rattle.neighbours.specs.Bandwidth.{local_bandwidth_distance};

use kernel::Place;
use setup::GwrBandwidth;

mod walk;

pub use walk::Walker;

// The k-th smallest distance from the place to the pantries; `own` stands at the place itself and is left out, if it is one.
pub fn nearest_from(coords: &[f64], place: Place, own: Option<usize>, k: usize) -> f64
    requires { length coords.now ≤ 1024 }
    ensures { result ≡ nearest_from coords.now (length coords.now / 2) place.east place.north own k }
{
    let mut walk = Walker::new();
    walk.walk_on(coords, 0, coords.len() / 2, place, own);
    walk.found_by(k)
}

// 000's `local_bandwidth_distance`.
pub fn local_bandwidth_distance(coords: &[f64], i: usize, bandwidth: GwrBandwidth) -> f64
    requires is_location { 2 * i + 1 < length coords.now }
    requires few { length coords.now ≤ 1024 }
    requires usable { Usable bandwidth }
    ensures { result ≡ local_bandwidth_distance coords.now (length coords.now / 2) i bandwidth }
{
    match bandwidth {
        GwrBandwidth::Fixed(b) => b,
        GwrBandwidth::AdaptiveKnn(k) => nearest_from(coords, Place::at(coords, i), Some(i), k),
    }
}
