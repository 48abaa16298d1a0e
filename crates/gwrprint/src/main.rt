// Reads a job from standard input and prints its fit.
// Proved: the first `len` bytes of `text` are `printed` of the first `got` of `input`, whichever these are (`listing::print_input`), and
// these are no more than are asked for (`read_input`). What is printed of the bytes asked for is what is printed of all of a standard
// input (crates/listing/proofs/Reading.antt `handed_on`).
// Not proved, since no contract of the kit says which bytes are read or written: that `read` gives those of standard input in order,
// and that `write_all` writes those lent to it. That is the kit's and the C library's, and is executed, on the stored jobs and on every
// prefix of one (scripts/prefixes.sh).
#![tactic(auto)]

ghost use Rattle.std.specs.Prelude.{◌≤◌, ◌≡◌, length, take};
ghost use Rattle.listing.specs.Printed.{read_of};

use std::io;
use std::io::Stdin;

fn main(rt: HostRuntime) -> io::Result<()> {
    let mut input = [0u8; 41000];
    let mut text = [0u8; 102400];
    let got = read_input(rt.stdin(), &mut input);
    let len = listing::print_input(&input[..got], &mut text);
    rt.write_all(&text[..len])
}

// Reads the header's 40 bytes, and then only as many as these ask for; none behind a header that is short or refused.
fn read_input(mut stdin: Stdin, input: &mut [u8]) -> usize
    requires { 41000 ≤ length input.old }
    ensures { (result ≤ 41000) × (read_of (take result input.new) ≡ take result input.new) }
{
    let head = intake::read_part(&mut stdin, &mut input[..40]);
    let end = 40 + header::asked_behind(&input[..head]);
    head + intake::read_part(&mut stdin, &mut input[40..end])
}
