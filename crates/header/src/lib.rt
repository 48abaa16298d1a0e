// The header that `gwrprint` reads, how much it reads behind it, and which part is cut short.
// Limits of sizes, and room for rows, are clauses: docs/DECISIONS.md says why.
#![tactic(auto)]

ghost use Rattle.std.specs.Prelude.{◌≡◌, ◌+◌, ◌*◌, ◌≤◌, ◌<◌, length};
ghost use Rattle.checks.specs.Judge.{judge};
ghost use Rattle.header.specs.Headers.{asked, sized_header, header_of, parts_len};
ghost use Rattle.header.specs.Cuts.{cut_tests};

use refusal::Refusal;

// The five numbers of a whole header that is not refused. Kernel, kind and bandwidth stay numbers, since the fit call takes them so.
#[derive(Clone, Copy)]
pub struct Head {
    pub n: usize,
    pub p: usize,
    pub kernel: u64,
    pub kind: u64,
    pub bandwidth: u64,
}

// The numbers of a header, or the refusal of a size.
#[tactic(auto, using(crate::proofs::Heads::sizes))]
fn sized_header(s: &[u8]) -> Result<Head, Refusal>
    requires { 40 ≤ length s.now }
    ensures { result ≡ sized_header s.now }
{
    let n = wire::load(s, 0);
    let p = wire::load(s, 8);
    if n == 0 {
        return Err(Refusal::NoCoordinates);
    }
    if 512 < n {
        return Err(Refusal::TooManyObservations);
    }
    if 7 < p {
        return Err(Refusal::TooManyPredictors);
    }
    Ok(Head {
        n: n as usize,
        p: p as usize,
        kernel: wire::load(s, 16),
        kind: wire::load(s, 24),
        bandwidth: wire::load(s, 32),
    })
}

// The header's numbers, and what is refused before reading on: 1 for a short header, then 18, an n of 0 or over 512, a p over 7.
#[tactic(auto, using(crate::proofs::Heads::header_short, crate::proofs::Heads::header_unknown, crate::proofs::Heads::header_known))]
pub fn header_of(s: &[u8]) -> Result<Head, Refusal>
    ensures { result ≡ header_of s.now }
{
    if s.len() < 40 {
        return Err(Refusal::NoCoordinates);
    }
    request::options_of(wire::load(s, 16), wire::load(s, 24), wire::load(s, 32))?;
    sized_header(s)
}

// How many bytes follow a header.
fn parts_len(n: usize, p: usize) -> usize
    requires { (n ≤ 512) × (p ≤ 7) }
    ensures { (result ≡ parts_len n p) × (result ≤ 40960) }
{
    8 * (n * (p + 3))
}

// The first part cut short gives 2, 5 or 6.
#[tactic(auto, unfolding(crate::specs::Cuts::cut_tests, checks::specs::Judge::judge))]
pub fn check_cuts(size: usize, n: usize, p: usize) -> Result<(), Refusal>
    requires { (n ≤ 512) × (p ≤ 7) }
    ensures { result ≡ judge (cut_tests size n p) }
{
    let places = 16 * n;
    let predictors = places + 8 * (n * p);
    if size < places {
        return Err(Refusal::OddCoordinates);
    }
    if size < predictors {
        return Err(Refusal::PredictorLength);
    }
    if size < predictors + 8 * n {
        return Err(Refusal::ResponseLength);
    }
    Ok(())
}

// How many bytes are to be read behind a header.
#[tactic(auto, using(crate::proofs::Heads::head_sized, crate::proofs::Heads::asked_is))]
pub fn asked_behind(head: &[u8]) -> usize
    ensures { (result ≡ asked (header_of head.now)) × (result ≤ 40960) }
{
    match header_of(head) {
        Err(_) => 0,
        Ok(h) => parts_len(h.n, h.p),
    }
}
