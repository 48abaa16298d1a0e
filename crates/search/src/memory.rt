// The trials that a search has made. A searched count comes to few counts, and a bracket that has shrunk to the same points
// again: such trials are looked up, not worked again.
// That the trials are this problem's is a clause: of a struct of both each contract would have to say that the problem stays the same.
ghost use Rattle.std.specs.Prelude.{◌≡◌, ◌<◌, length};
ghost use Rattle.search.specs.Trial.{trial_of};
ghost use Rattle.search.specs.Memo.{key_of, serves, slot_of, Remembered};

use super::trials::evaluate_aicc;
use super::{Trial, Tried};
use setup::{GwrBandwidth, Problem};

// What tells a bandwidth from the others of its kind: of a distance the bits, since as a number a NaN is unequal to itself.
#[tactic(auto, unfolding(crate::specs::Memo::key_of))]
fn key_of(b: GwrBandwidth) -> u64
    ensures { result ≡ key_of b }
{
    match b {
        GwrBandwidth::Fixed(d) => wire::bits_of(d),
        GwrBandwidth::AdaptiveKnn(k) => k as u64,
    }
}

// Whether an entry serves for a key: it is free, or has the key.
fn serves(held: Option<Tried>, key: u64) -> bool
    ensures { result ≡ serves key held }
{
    match held {
        None => true,
        Some(tried) => tried.key == key,
    }
}

// The entry for a key: the first that serves, else the last.
fn slot_of(tried: &[Option<Tried>; 102], key: u64) -> usize
    ensures value { result ≡ slot_of tried.now key }
    ensures within { result < 102 }
{
    tried
        .iter()
        .position(|held| serves(*held, key))
        .unwrap_or(101)
}

// The trial at a point of the search: what an earlier trial at the same bandwidth left, or a sweep, which is remembered.
#[tactic(auto, using(crate::proofs::Memos::recalled, crate::proofs::Memos::point_is, bounds::proofs::Usable::bandwidth_usable))]
pub fn trial_of(problem: &Problem<'_>, point: f64, tried: &mut [Option<Tried>; 102]) -> Trial
    requires remembered { Remembered problem.now.setup problem.now.columns tried.old }
    ensures value { result ≡ trial_of problem.now.setup problem.now.columns point }
    ensures still_remembered { Remembered problem.now.setup problem.now.columns tried.new }
{
    let u = problem.setup();
    let b = bounds::bandwidth_at(u, point);
    let key = key_of(b);
    let j = slot_of(&*tried, key);
    if let Some(held) = tried[j] {
        if held.key == key {
            return held.trial;
        }
    }
    let trial = evaluate_aicc(problem, b);
    tried[j] = Some(Tried { key, trial });
    trial
}
