// The weight call on bytes. Kernel, distance and bandwidth are numbers, as document 01's call passes them.
#![tactic(auto)]

ghost use Rattle.std.specs.Prelude.{◌≡◌, ◌≤◌, ◌<◌, length};
ghost use Rattle.request.specs.Answer.{answer_number};
ghost use Rattle.weighing.specs.Weighing.{placed_weight, weighed_bytes, weight_bytes};

use kernel::GwrKernel;
use refusal::Refusal;

// The weight, or the weight 0 and refusal 9, to the first 8 bytes of out.
#[tactic(auto, using(crate::proofs::Judged::front_placed))]
fn placed_weight(weighed: Option<f64>, out: &mut [u8]) -> Result<(), Refusal>
    requires { 8 ≤ length out.old }
    ensures { (answer_number result, out.new) ≡ placed_weight weighed out.old }
{
    match weighed {
        Some(w) => {
            wire::store(out, 0, wire::bits_of(w));
            Ok(())
        }
        None => {
            wire::store(out, 0, 0);
            Err(Refusal::CoordinateNotFinite)
        }
    }
}

// The same, or refusal 13 where out has fewer than 8 bytes.
#[tactic(auto, unfolding(crate::specs::Weighing::weighed_bytes))]
fn weighed_bytes(weighed: Option<f64>, out: &mut [u8]) -> Result<(), Refusal>
    ensures { (answer_number result, out.new) ≡ weighed_bytes weighed out.old }
{
    if out.len() < 8 {
        return Err(Refusal::OutputTooShort);
    }
    placed_weight(weighed, out)
}

// The weight call: the weight of the distance of bits d at the bandwidth of bits b, to the first 8 bytes of out.
#[tactic(auto, using(crate::proofs::Judged::weight_unknown, crate::proofs::Judged::weight_weighed))]
pub fn weight_bytes(kernel: u64, d: u64, b: u64, out: &mut [u8]) -> Result<(), Refusal>
    ensures { (answer_number result, out.new) ≡ weight_bytes kernel d b out.old }
{
    let kernel = GwrKernel::try_from(kernel)?;
    let weighed = kernel::weigh_distance(kernel, wire::real_of(d), wire::real_of(b));
    weighed_bytes(weighed, out)
}
