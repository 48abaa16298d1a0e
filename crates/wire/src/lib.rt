// Numbers as 8 little-endian bytes, and reals by their bits.
#![tactic(auto)]

ghost use Rattle.std.specs.Prelude.{◌≡◌, ◌++◌, ◌+◌, ◌*◌, ◌^◌, ◌≤◌, ◌<◌, length, take, drop};
ghost use Rattle.wire.specs.Wire.{bits_of, real_of, bytes_of, number_of, load_of, reals, real_bytes};

use std::num::{f64_from_bits_with_nan, f64_to_bits_with_nan};

// The bits of a real; every NaN has those of 7FF8000000000000.
#[tactic(auto, using(crate::proofs::Floats::bits_of_is))]
pub fn bits_of(x: f64) -> u64
    ensures { result ≡ bits_of x }
{
    f64_to_bits_with_nan(x)
}

// The real of a bit pattern.
#[tactic(auto, unfolding(crate::specs::Wire::real_of))]
pub fn real_of(bits: u64) -> f64
    ensures { result ≡ real_of bits }
{
    f64_from_bits_with_nan(bits)
}

// Eight bytes as a number, the lowest first. At a place, not of a slice: a header and a summary are read at 0, 8, 16 and on, and each
// reader would cut the slice.
pub fn load(s: &[u8], at: usize) -> u64
    requires { at + 8 ≤ length s.now }
    ensures { result ≡ load_of s.now at }
{
    u64::from_le_bytes(*s[at..].first_chunk::<8>().unwrap())
}

// The number as eight bytes, the lowest first, at a place as `load` reads it.
pub fn store(s: &mut [u8], at: usize, v: u64)
    requires { at + 8 ≤ length s.old }
    ensures { s.new ≡ take at s.old ++ (bytes_of v ++ drop (at + 8) s.old) }
{
    s[at..at + 8].copy_from_slice(&v.to_le_bytes());
}

// As many numbers of s, as reals, as there is room for.
pub fn decode(s: &[u8], into: &mut [f64])
    requires { 8 * length into.old ≤ length s.now }
    ensures { into.new ≡ reals s.now (length into.old) }
{
    // By numbers: of what a zip with the chunks writes a proof knows nothing afterwards.
    for (k, x) in into.iter_mut().enumerate() {
        *x = real_of(load(s, 8 * k));
    }
}

// The reals as bytes.
pub fn encode(from: &[f64], s: &mut [u8])
    requires { 8 * length from.now ≤ length s.old }
    ensures { s.new ≡ real_bytes from.now ++ drop (8 * length from.now) s.old }
{
    // By numbers: of what is written to chunks of s a proof knows nothing afterwards.
    for (k, x) in from.iter().enumerate() {
        store(s, 8 * k, bits_of(*x));
    }
}
