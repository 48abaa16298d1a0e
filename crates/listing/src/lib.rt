// What `gwrprint` prints. Bytes of fixed room with how many of them count, since there is no heap.
// Limits of sizes, and room for rows, are clauses: docs/DECISIONS.md says why.
#![tactic(auto)]

ghost use Rattle.std.specs.Prelude.{◌≡◌, ◌+◌, ◌*◌, ◌≤◌, ◌<◌, length};
ghost use Rattle.wire.specs.Wire.{load_of};
ghost use Rattle.request.specs.Answer.{answer_number};
ghost use Rattle.text.specs.Listing.{WrittenText};
ghost use Rattle.listing.specs.Jobs.{answer_text, whole_text, job_text};
ghost use Rattle.header.specs.Cuts.{responses_end};
ghost use Rattle.listing.specs.Printed.{printed};

use header::Head;
use refusal::Refusal;

// The text of a fit that answered so, with n rows of `width` numbers, from the two slices that the fit call wrote. The text is a slice
// with at least the room of the longest listing: an array's type would ask for exactly that length.
#[tactic(auto, using(refusal::proofs::Range::numbered, crate::proofs::Texts::number_small), unfolding(crate::specs::Jobs::answer_text))]
fn print_answer(
    answer: Result<(), Refusal>,
    out: &[u8],
    summary: &[u8],
    n: usize,
    width: usize,
    text: &mut [u8],
) -> usize
    requires sizes { (n ≤ 512) × (width ≤ 11) × (8 * (n * width) ≤ length out.now) × (24 ≤ length summary.now) × (102400 ≤ length text.old) }
    requires few_solves { answer_number answer ≡ 0 → load_of summary.now 16 ≤ 52736 }
    ensures { WrittenText text.old 0 (answer_text (answer_number answer, (out.now, summary.now)) n width) text.new result }
{
    match answer {
        Err(r) => text::put_refused(text, u32::from(r)),
        Ok(()) => text::put_fit(text, summary, out, n, width),
    }
}

// The text of a job whose parts are whole, with `out` and `summary` lent to the fit.
#[tactic(auto, using(calls::proofs::Bytes::part_long, crate::proofs::Texts::part_is), unfolding(crate::specs::Jobs::whole_text, crate::specs::Jobs::call_of_parts))]
fn print_whole(h: Head, parts: &[u8], out: &mut [u8], summary: &mut [u8], text: &mut [u8]) -> usize
    requires whole { (h.n ≤ 512) × (h.p ≤ 7) × (responses_end h.n h.p ≤ length parts.now) }
    requires room { (45056 ≤ length out.old) × (24 ≤ length summary.old) × (102400 ≤ length text.old) }
    ensures { WrittenText text.old 0 (whole_text h parts.now out.old summary.old) text.new result }
{
    let n = h.n;
    let p = h.p;
    let places = 16 * n;
    let predictors = places + 8 * (n * p);
    let all = predictors + 8 * n;
    let answer = calls::fit_bytes(
        &parts[..places],
        &parts[places..predictors],
        &parts[predictors..all],
        p as u64,
        h.kernel,
        h.kind,
        h.bandwidth,
        &mut *out,
        &mut *summary,
    );
    print_answer(answer, &*out, &*summary, n, p + 4, text)
}

// The text of a job whose parts follow its header; answers its length.
#[tactic(auto, using(crate::proofs::Texts::number_small, header::proofs::Heads::parts_whole), unfolding(crate::specs::Jobs::job_text, checks::specs::Judge::ruled))]
pub fn print_job(h: Head, parts: &[u8], text: &mut [u8]) -> usize
    requires { (h.n ≤ 512) × (h.p ≤ 7) × (102400 ≤ length text.old) }
    ensures { WrittenText text.old 0 (job_text h parts.now) text.new result }
{
    match header::check_cuts(parts.len(), h.n, h.p) {
        Err(r) => text::put_refused(text, u32::from(r)),
        Ok(()) => {
            let mut out = [0u8; 45056];
            let mut summary = [0u8; 24];
            print_whole(h, parts, &mut out, &mut summary, text)
        }
    }
}

// All that is printed of an input, of any bytes and any length; answers the text's length.
#[tactic(auto, using(crate::proofs::Texts::number_small, crate::proofs::Texts::refused_input, crate::proofs::Texts::whole_input, crate::proofs::Judged::parts_printed, header::proofs::Heads::head_sized, header::proofs::Heads::head_long))]
pub fn print_input(input: &[u8], text: &mut [u8]) -> usize
    requires { 102400 ≤ length text.old }
    ensures { WrittenText text.old 0 (printed input.now) text.new result }
{
    match header::header_of(input) {
        Err(r) => text::put_refused(text, u32::from(r)),
        Ok(h) => print_job(h, &input[40..], text),
    }
}
