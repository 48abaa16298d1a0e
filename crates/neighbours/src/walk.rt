// The walk over the pantries, each met once. It can be stopped and asked anywhere, and taken up again from there.
ghost use Rattle.std.specs.Prelude.{◌≡◌, ◌+◌, ◌-◌, ◌*◌, ◌≤◌, ◌<◌, length};
ghost use Rattle.neighbours.specs.Walk.{unmet, is_own, pass, walk_on, found_by, squares_from};

use kernel::Place;
use std::marker::Model;

// A walk: its sums of squares stand at the front, in order, zeros behind them, and how many they are and the greatest of them beside.
// Room for 512, the most pantries, since no heap is used.
#[derive(Clone, Copy)]
pub struct Walker {
    buffer: [f64; 512],
    met: usize,
    greatest: f64,
}

impl Model for Walker {
    ghost use Rattle.std.specs.Prelude.{◌≡◌, ℕ, ◌-◌, ◌≤◌, List, ◌++◌, length, take, drop, replicate, Float};
    ghost use Rattle.std.proofs.Common.{sym, ap, ◌∙◌, subst, length-take-le, take-append-drop};
    ghost use Rattle.real.specs.Reals.{zero64};
    ghost use Rattle.neighbours.specs.Walk.{Walk, walk_in};

    ghost Value = { Walk };

    ghost view = { λ w. walk_in w.buffer w.met w.greatest };

    ghost invariant = { λ w. (w.met ≤ 512) × (length w.buffer ≡ 512) × (drop w.met w.buffer ≡ replicate (512 - w.met) zero64) };

    ghost inverse = { λ w. record { buffer = w.sums ++ replicate (512 - length w.sums) zero64; met = length w.sums; greatest = w.greatest } };

    ghost inverse_ok = { λ w h i. let m = length-take-le w.met w.buffer (subst (λ (n : ℕ). w.met ≤ n) (sym h.1) h.0) in record {
      buffer = (ap (λ (n : ℕ). take w.met w.buffer ++ replicate (512 - n) zero64) m ∙ ap (λ (l : List Float). take w.met w.buffer ++ l) (sym h.2) ∙ take-append-drop w.met w.buffer) i;
      met = m i;
      greatest = w.greatest;
    } };
}

// Whether pantry j is the walk's own: a function, since the definition of `pass` tests it by this name.
#[tactic(auto, using(crate::proofs::Walks::own_is))]
fn is_own(own: Option<usize>, j: usize) -> bool
    ensures { result ≡ is_own own j }
{
    own == Some(j)
}

impl Walker {
    // A walk that has met nobody.
    pub fn new() -> Self
        ensures { result ≡ unmet }
    {
        Walker {
            buffer: [0.0; 512],
            met: 0,
            greatest: 0.0,
        }
    }

    // A walk taken up from sums of squares and the greatest of them: those of another walk, or any.
    pub fn resume(sums: &[f64], greatest: f64) -> Self
        requires { length sums.now ≤ 512 }
        ensures { result ≡ record { sums = sums.now; greatest = greatest } }
    {
        let met = sums.len();
        let mut buffer = [0.0; 512];
        buffer[..met].copy_from_slice(sums);
        Walker {
            buffer,
            met,
            greatest,
        }
    }

    // The sums of squares of those it has met, in order.
    pub fn sums(&self) -> &[f64]
        ensures sums { result.now ≡ self.now.sums }
        ensures few { length result.now ≤ 512 }
    {
        &self.buffer[..self.met]
    }

    // The greatest of them.
    pub fn greatest(&self) -> f64
        ensures { result ≡ self.now.greatest }
    {
        let Walker { greatest, .. } = self;
        *greatest
    }

    // Pantry j met from the place, unless it is the walk's own.
    fn pass(&mut self, coords: &[f64], j: usize, place: Place, own: Option<usize>)
        requires { (2 * j + 1 < length coords.now) × (length self.old.sums < 512) }
        ensures { self.new ≡ pass own (squares_from coords.now place.east place.north) j self.old }
    {
        if is_own(own, j) {
            return;
        }
        let s = place.squares(Place::at(coords, j));
        let at = self.met;
        self.buffer[at] = s;
        self.met = at + 1;
        self.greatest = real::max(self.greatest, s);
    }

    // The walk taken on over the pantries `from` to `to` - 1, seen from the place.
    pub fn walk_on(
        &mut self,
        coords: &[f64],
        from: usize,
        to: usize,
        place: Place,
        own: Option<usize>,
    )
        requires { (from ≤ to) × (2 * to ≤ length coords.now) × (length self.old.sums + (to - from) ≤ 512) }
        ensures { self.new ≡ walk_on own (squares_from coords.now place.east place.north) from to self.old }
    {
        // An index: pantry j is told from the walk's own by its number.
        for j in from..to {
            self.pass(coords, j, place, own);
        }
    }

    // What the walk gives for a count k when stopped: the root of the k-th smallest sum, of the greatest where fewer were met; where
    // that is zero, or nobody was met, the greater of the greatest distance and EPSILON.
    pub fn found_by(&self, k: usize) -> f64
        ensures { result ≡ found_by k self.now }
    {
        let greatest = self.greatest();
        let s = selection::select(self.sums(), k, greatest);
        if s > 0.0 {
            return root::sqrt(s);
        }
        real::max(root::sqrt(greatest), f64::EPSILON)
    }
}
