// Floats as bytes, four each, the lowest first: to and from the bit patterns of binary32, at every
// pattern and every float.
#![tactic(auto)]

ghost use Rattle.std.specs.Prelude.{◌≡◌, Float, length, map};
ghost use Rattle.std.specs.Float.{binary32};
ghost use Rattle.std.specs.Float.Ieee.{of_bits, to_bits};
ghost use Rattle.wire.specs.Wire.{value_of, filled, decoded, written};

use samples::clear;

// The float of a pattern, which for the pattern of a NaN is NaN (R9.4).
pub fn sample(n: u32) -> f32
    ensures { result ≡ of_bits binary32 n }
{
    if n % 2147483648 <= 2139095040 {
        f32::from_bits(n)
    } else {
        f32::NAN
    }
}

// The pattern of a float, which for NaN is that of the quiet NaN (R9.18).
pub fn bits(x: f32) -> u32
    ensures { result ≡ to_bits binary32 x }
{
    if x.is_nan() { 0x7fc0_0000 } else { x.to_bits() }
}

// A way in which a group of bytes makes a float.
pub trait Code<G> {
    ghost float_of: { G → Float };

    fn float(group: G) -> f32
        ensures { result ≡ float_of group };
}

// Four bytes are the pattern of a float, the lowest first (R9.4).
struct Words;

impl Code<[u8; 4]> for Words {
    ghost float_of = { λ word. of_bits binary32 (value_of word) };

    fn float(word: [u8; 4]) -> f32 {
        sample(u32::from_le_bytes(word))
    }
}

// Fills `out` with the floats of as many groups of bytes. No test is made in the loop, so that it can
// be compiled to make several floats at once.
fn unpack_whole<G: Copy, C: Code<G>>(groups: &[G], out: &mut [f32])
    requires { length groups.now ≡ length out.old }
    ensures { out.new ≡ map C.float_of groups.now }
{
    // Kept (3): `out.iter_mut().zip(groups)` was tried and the proof didn't close: what was written
    // through a zip is not known behind the loop.
    for (i, x) in out.iter_mut().enumerate() {
        *x = C::float(groups[i]);
    }
}

// Fills `out` with the floats of the groups of bytes, and with +0 past the last (R9.16).
pub fn unpack<G: Copy, C: Code<G>>(groups: &[G], out: &mut [f32])
    ensures { out.new ≡ filled C.float_of (length out.old) groups.now }
{
    let whole = out.len().min(groups.len());
    unpack_whole::<G, C>(&groups[..whole], &mut out[..whole]);
    clear(&mut out[whole..]);
}

// Fills `out` with the floats of the bytes, and with +0 past the last whole one (R9.16).
pub fn decode(bytes: &[u8], out: &mut [f32])
    ensures { out.new ≡ decoded (length out.old) bytes.now }
{
    let (words, _) = bytes.as_chunks::<4>();
    unpack::<[u8; 4], Words>(words, out);
}

// Writes the bytes of as many floats as both slices have room for, and leaves the rest of
// `out` (R9.17).
pub fn encode(xs: &[f32], out: &mut [u8])
    ensures { out.new ≡ written xs.now out.old }
{
    let count = xs.len().min(out.len() / 4);
    let xs = &xs[..count];
    // Kept (3): `out.chunks_exact_mut(4).zip(xs)` was tried and the proof didn't close, for the same
    // reason as above.
    for (i, x) in xs.iter().enumerate() {
        let word = bits(*x).to_le_bytes();
        out[4 * i..4 * i + 4].copy_from_slice(&word);
    }
}
