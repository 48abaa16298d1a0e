// Places and the distances between them.
ghost use Rattle.std.specs.Prelude.{◌≡◌, ◌+◌, ◌*◌, ◌<◌, length};
ghost use Rattle.root.specs.Guess.{guess_of};
ghost use Rattle.kernel.specs.Weight.{squares_of, distance_of};
ghost use Rattle.kernel.specs.Place.{place_at};

// A place: easting and northing.
#[derive(Clone, Copy)]
pub struct Place {
    pub east: f64,
    pub north: f64,
}

impl Place {
    // Place j of coordinates, which stand in pairs.
    pub fn at(coords: &[f64], j: usize) -> Self
        requires { 2 * j + 1 < length coords.now }
        ensures { result ≡ place_at coords.now j }
    {
        Place {
            east: coords[2 * j],
            north: coords[2 * j + 1],
        }
    }

    // The sum of the squares of the distance to another place.
    pub fn squares(self, other: Place) -> f64
        ensures { result ≡ squares_of self.east self.north other.east other.north }
    {
        let dx = self.east - other.east;
        let dy = self.north - other.north;
        dx * dx + dy * dy
    }

    // The distance to another place.
    pub fn distance(self, other: Place) -> f64
        ensures { result ≡ distance_of self.east self.north other.east other.north }
    {
        root::sqrt(self.squares(other))
    }

    // A guess at the distance to another place. How near it comes is not claimed.
    pub fn guess_distance(self, other: Place) -> f64
        ensures { result ≡ guess_of (squares_of self.east self.north other.east other.north) }
    {
        root::guess(self.squares(other))
    }

    // The distance to another place, fast where y is `guess_distance` of it. Distances to many places are faster where all are guessed
    // first.
    #[tactic(auto, using(crate::proofs::Reaches::distance_is))]
    pub fn settle_distance(self, other: Place, y: f64) -> f64
        ensures { result ≡ distance_of self.east self.north other.east other.north }
    {
        root::sqrt_near(self.squares(other), y)
    }
}
