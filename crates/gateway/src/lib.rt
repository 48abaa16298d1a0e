// The byte calls with C linkage, for a program in another language. It lends slices one by one, has numbers for kernel and kind, and
// is answered a number.
#![tactic(auto)]

ghost use Rattle.std.specs.Prelude.{◌≡◌};
ghost use Rattle.calls.specs.Calls.{fit_bytes};
ghost use Rattle.weighing.specs.Weighing.{weight_bytes};

// Fits a job: coordinates (2n numbers), predictors (n × p, row by row) and responses (n), 8 little-endian bytes each; the numbers
// of kernel and kind, and the bandwidth's bits or count. Rows go to out and the summary to 24 bytes. Answers the refusal's number.
#[unsafe(no_mangle)]
pub extern "C" fn zescolumba_fit(
    coords: &[u8],
    x: &[u8],
    y: &[u8],
    p: u64,
    kernel: u64,
    kind: u64,
    bandwidth: u64,
    out: &mut [u8],
    summary: &mut [u8],
) -> u32
    ensures { (result, (out.new, summary.new)) ≡ fit_bytes coords.now x.now y.now p kernel kind bandwidth out.old summary.old }
{
    let answer = calls::fit_bytes(coords, x, y, p, kernel, kind, bandwidth, out, summary);
    request::answer_number(answer)
}

// The weight of a distance at a bandwidth, both given by their bits, to 8 bytes of out. Answers the refusal's number.
#[unsafe(no_mangle)]
pub extern "C" fn zescolumba_weight(kernel: u64, d: u64, b: u64, out: &mut [u8]) -> u32
    ensures { (result, out.new) ≡ weight_bytes kernel d b out.old }
{
    request::answer_number(weighing::weight_bytes(kernel, d, b, out))
}
