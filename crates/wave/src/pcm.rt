// The floats of a stretch of bytes, by the tag of its take.
ghost use Rattle.std.specs.Prelude.{◌≡◌, length};
ghost use Rattle.wire.specs.Wire.{value_of};
ghost use Rattle.wave.specs.Floats.{short_sample, floats_of};

use crate::chunks::WHOLE_NUMBERS;
use wire::Code;

// Two bytes are a whole number of 16 bits, which is divided by 32,768 (R11.13).
struct Shorts;

impl Code<[u8; 2]> for Shorts {
    ghost float_of = { λ pair. short_sample (value_of pair) };

    fn float(pair: [u8; 2]) -> f32 {
        f32::from(i16::from_le_bytes(pair)) / 32768.0
    }
}

// Fills `out` with the floats of a take's bytes, and with +0 past the last whole one (R11.13).
#[tactic(auto, unfolding(crate::specs::Floats::floats_of))]
pub fn floats(bytes: &[u8], tag: u32, out: &mut [f32])
    ensures { out.new ≡ floats_of tag (length out.old) bytes.now }
{
    if tag == WHOLE_NUMBERS {
        let (pairs, _) = bytes.as_chunks::<2>();
        wire::unpack::<[u8; 2], Shorts>(pairs, out);
    } else {
        wire::decode(bytes, out);
    }
}
