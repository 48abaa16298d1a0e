// Golden section search as a bracket that trials narrow.
#![tactic(auto)]

ghost use Rattle.std.specs.Prelude.{◌≡◌};
ghost use Rattle.golden.specs.Golden.{no_bracket, start_of, first_of, second_of, goes_left, aim_of, improved_of, left_of, right_of, narrow_of, tight_of};

// The bracket a b, its inner points c d, its width h, the scores of c and d, and the best point tried with its score. What is not
// tried yet is zero, and no Option: whoever searches tries both points before anything reads a score. Points and scores stand one
// by one, as 000's search names them.
#[derive(Clone, Copy)]
pub struct Bracket {
    pub a: f64,
    pub b: f64,
    pub c: f64,
    pub d: f64,
    pub h: f64,
    pub fc: f64,
    pub fd: f64,
    pub best: f64,
    pub low: f64,
}

// The reciprocal of the golden ratio, (root of 5, less 1) / 2, and its square, as their operations round them.
const G: f64 = 0.6180339887498949;

const G2: f64 = 0.3819660112501052;

impl Bracket {
    // Of a job that does not search: zeros, which nothing reads.
    pub fn none() -> Self
        ensures { result ≡ no_bracket }
    {
        Bracket {
            a: 0.0,
            b: 0.0,
            c: 0.0,
            d: 0.0,
            h: 0.0,
            fc: 0.0,
            fd: 0.0,
            best: 0.0,
            low: 0.0,
        }
    }

    // The first bracket and its two inner points, not scored yet.
    #[tactic(auto, unfolding(crate::specs::Golden::start_of))]
    pub fn start(lo: f64, hi: f64) -> Self
        ensures { result ≡ start_of lo hi }
    {
        let h = hi - lo;
        Bracket {
            a: lo,
            b: hi,
            c: lo + G2 * h,
            d: lo + G * h,
            h,
            ..Bracket::none()
        }
    }

    // The score of c, the first trial.
    pub fn first(self, score: f64) -> Self
        ensures { result ≡ first_of self score }
    {
        Bracket { fc: score, ..self }
    }

    // The score of d, the second trial: best is c if fc ≤ fd, else d.
    #[tactic(auto, unfolding(crate::specs::Golden::second_of))]
    pub fn second(self, score: f64) -> Self
        ensures { result ≡ second_of self score }
    {
        let (best, low) = if self.fc <= score {
            (self.c, self.fc)
        } else {
            (self.d, score)
        };
        Bracket {
            fd: score,
            best,
            low,
            ..self
        }
    }

    // Whether the next round keeps the part from a to d: c has the strictly lower score.
    fn goes_left(self) -> bool
        ensures { result ≡ goes_left self }
    {
        self.fc < self.fd
    }

    // The point that the next round tries.
    #[tactic(auto, unfolding(crate::specs::Golden::aim_of))]
    pub fn aim(self) -> f64
        ensures { result ≡ aim_of self }
    {
        if self.goes_left() {
            self.a + G2 * (self.d - self.a)
        } else {
            self.c + G * (self.b - self.c)
        }
    }

    // The bracket after the round that tried `aim`, which scored so: the side of the lower score stays.
    #[tactic(auto, unfolding(crate::specs::Golden::narrow_of))]
    pub fn narrow(self, score: f64) -> Self
        ensures { result ≡ narrow_of self score }
    {
        let point = self.aim();
        let next = self.improve(point, score);
        if self.goes_left() {
            next.keep_left(point, score)
        } else {
            next.keep_right(point, score)
        }
    }

    // Only a strictly lower score replaces the best.
    #[tactic(auto, unfolding(crate::specs::Golden::improved_of))]
    fn improve(self, point: f64, score: f64) -> Self
        ensures { result ≡ improved_of self point score }
    {
        if score < self.low {
            Bracket {
                best: point,
                low: score,
                ..self
            }
        } else {
            self
        }
    }

    // The part from a to d, with `point` as its new c. `keep_right` is its mirror image, with other fields throughout.
    fn keep_left(self, point: f64, score: f64) -> Self
        ensures { result ≡ left_of self point score }
    {
        Bracket {
            a: self.a,
            b: self.d,
            c: point,
            d: self.c,
            h: self.d - self.a,
            fc: score,
            fd: self.fc,
            ..self
        }
    }

    // The part from c to b, with `point` as its new d.
    fn keep_right(self, point: f64, score: f64) -> Self
        ensures { result ≡ right_of self point score }
    {
        Bracket {
            a: self.c,
            b: self.b,
            c: self.d,
            d: point,
            h: self.b - self.c,
            fc: self.fd,
            fd: score,
            ..self
        }
    }

    // Whether the search ends before its hundredth round.
    #[tactic(auto, using(real::proofs::Std::size_same), unfolding(crate::specs::Golden::tight_of))]
    pub fn is_tight(self) -> bool
        ensures { result ≡ tight_of self }
    {
        self.h.abs() <= f64::EPSILON
    }
}
