// The pseudo-random sequence that jobs and turns are drawn from.
ghost use Rattle.std.specs.Prelude.{◌^◌, ◌<◌};

// A number of the sequence, or half of one.
#[derive(Clone, Copy)]
pub struct Seed {
    digits: u64,
    ghost small: { digits < 2 ^ 31 },
}

impl Seed {
    // The seed of every run.
    pub fn first() -> Self {
        Seed { digits: 20261115 }
    }

    pub fn next(self) -> Self {
        Seed {
            digits: (self.digits * 1103515245 + 12345) % 0x8000_0000,
        }
    }

    pub fn half(self) -> Self {
        Seed {
            digits: self.digits / 2,
        }
    }

    // A number from 0 to k - 1, from the better digits.
    pub fn draw(self, k: u64) -> u64
        requires { 0 < k }
        ensures { result < k }
    {
        self.digits / 65536 % k
    }
}
