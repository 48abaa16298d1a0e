// Square roots and exponentials of many numbers in place, so that a timing of one has no call's cost in it; for crates/measured.
// Guesses have fixed room, since there is no heap.
#![tactic(auto)]

ghost use Rattle.std.specs.Prelude.{◌≡◌, map, ◌≤◌, length};
ghost use Rattle.std.specs.List.{AllZip};
ghost use Rattle.root.specs.Root.{root};
ghost use Rattle.elementary.specs.Exp.{expv};

// Each number becomes what f gives of it.
fn map_each<F: Fn(f64) -> f64>(values: &mut [f64], f: F)
    requires { F.IsAlwaysCallable f }
    ensures { AllZip (λ x y. F.post f x y) values.old values.new }
{
    for v in values.iter_mut() {
        *v = f(*v);
    }
}

// Each number becomes its square root.
pub fn roots(values: &mut [f64])
    ensures { values.new ≡ map root values.old }
{
    map_each(values, root::sqrt);
}

// A guess at the root of each number. Nothing is claimed of it.
fn guess_each(values: &[f64], into: &mut [f64; 512])
    requires { length values.now ≤ 512 }
{
    for (guess, v) in into.iter_mut().zip(values) {
        *guess = root::guess(*v);
    }
}

// Each number becomes its square root, from a guess at it.
fn settle_each(values: &mut [f64], guesses: &[f64; 512])
    requires { length values.old ≤ 512 }
    ensures { values.new ≡ map root values.old }
{
    // By numbers: of what a zip with the guesses writes a proof knows nothing afterwards.
    for (i, v) in values.iter_mut().enumerate() {
        *v = root::sqrt_near(*v, guesses[i]);
    }
}

// The same roots; up to 512 numbers are all guessed first and settled then, as a local solve does it.
pub fn roots_in_passes(values: &mut [f64])
    ensures { values.new ≡ map root values.old }
{
    if values.len() <= 512 {
        let mut guesses = [0.0; 512];
        guess_each(&*values, &mut guesses);
        settle_each(values, &guesses);
    } else {
        roots(values);
    }
}

// Each number becomes its exponential.
pub fn exponentials(values: &mut [f64])
    ensures { values.new ≡ map expv values.old }
{
    map_each(values, elementary::exp);
}
