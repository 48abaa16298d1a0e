// What a call asks for, options from their numbers and byte lengths, and the number that it answers.
// Limits of sizes, and room for rows, are clauses: docs/DECISIONS.md says why.
#![tactic(auto)]

ghost use Rattle.std.specs.Prelude.{◌≡◌, ◌*◌, ◌/◌, ◌≤◌, ◌<◌};
ghost use Rattle.checks.specs.Judge.{judge};
ghost use Rattle.request.specs.Answer.{answer_number};
ghost use Rattle.request.specs.Options.{kind_of, options_of};
ghost use Rattle.request.specs.Lengths.{part_tests, byte_tests};

use kernel::GwrKernel;
use refusal::Refusal;
use setup::{GwrBandwidth, GwrOptions};

// Kind 0 is a distance and 1 a count; 2 and 3 are the same, searched. A number, since the C interface passes one.
#[tactic(auto, unfolding(crate::specs::Options::kind_of))]
fn kind_of(kernel: GwrKernel, kind: u64, bandwidth: u64) -> Result<GwrOptions, Refusal>
    ensures { result ≡ kind_of kernel kind bandwidth }
{
    let distance = GwrBandwidth::Fixed(wire::real_of(bandwidth));
    let count = GwrBandwidth::AdaptiveKnn(bandwidth as usize);
    match kind {
        0 => Ok(GwrOptions::unguarded(kernel, distance, false)),
        1 => Ok(GwrOptions::unguarded(kernel, count, false)),
        2 => Ok(GwrOptions::unguarded(kernel, distance, true)),
        3 => Ok(GwrOptions::unguarded(kernel, count, true)),
        _ => Err(Refusal::UnknownNumber),
    }
}

// The options of the numbers of kernel and kind, and of the bandwidth's bits or count; 18 refuses an unknown number.
#[tactic(auto, using(crate::proofs::Options::kernel_named, crate::proofs::Options::kernel_unnamed))]
pub fn options_of(kernel: u64, kind: u64, bandwidth: u64) -> Result<GwrOptions, Refusal>
    ensures { result ≡ options_of kernel kind bandwidth }
{
    let kernel = GwrKernel::try_from(kernel)?;
    kind_of(kernel, kind, bandwidth)
}

// Refusals 5 and 6 of byte lengths.
#[tactic(auto, unfolding(crate::specs::Lengths::part_tests, checks::specs::Judge::judge))]
fn check_part_bytes(x: usize, y: usize, n: usize, p: usize) -> Result<(), Refusal>
    requires { (n ≤ 512) × (p ≤ 7) }
    ensures { result ≡ judge (part_tests x y n p) }
{
    if x != 8 * (n * p) {
        return Err(Refusal::PredictorLength);
    }
    if y != 8 * n {
        return Err(Refusal::ResponseLength);
    }
    Ok(())
}

// Refusals 1 to 6 of byte lengths; p is a number of predictors. Not one with `input::check_shape` by a number's size: that one asks
// for trusts and 7 too, and document 01's two lists would be laws of a third.
#[tactic(auto, unfolding(crate::specs::Lengths::byte_tests, crate::specs::Lengths::part_tests, checks::specs::Judge::judge))]
pub fn check_bytes(coords: usize, x: usize, y: usize, p: u64) -> Result<(), Refusal>
    ensures { result ≡ judge (byte_tests coords x y p) }
{
    if coords == 0 {
        return Err(Refusal::NoCoordinates);
    }
    if 0 < coords % 16 {
        return Err(Refusal::OddCoordinates);
    }
    let n = coords / 16;
    if 512 < n {
        return Err(Refusal::TooManyObservations);
    }
    if 7 < p {
        return Err(Refusal::TooManyPredictors);
    }
    check_part_bytes(x, y, n, p as usize)
}

// The number of an answer, for the C interface: 0 where nothing is refused. No two refusals share one (refusal/proofs/Distinct
// `number_tells`), so it tells the answer (proofs/Answers `answer_tells`). `Finish::number` is the same of an Option, since a finish
// has its summary in both cases.
pub fn answer_number(answer: Result<(), Refusal>) -> u32
    ensures { result ≡ answer_number answer }
{
    match answer {
        Ok(()) => 0,
        Err(r) => u32::from(r),
    }
}
