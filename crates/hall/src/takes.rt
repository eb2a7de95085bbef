// Studio takes.
ghost use Rattle.std.specs.Prelude.{◌≡◌, length};
ghost use Rattle.wave.specs.Reading.{reading};
ghost use Rattle.wave.specs.Floats.{floats_of};
ghost use Rattle.hall.specs.Face.{faced_wave};

use crate::HallWave;

// Reads a RIFF/WAVE file (R11.14).
pub fn hall_wave_read(file: &[u8]) -> HallWave
    ensures { result ≡ faced_wave (reading file.now) }
{
    HallWave::from(wave::read(file))
}

// Fills `out` with the floats of a take's bytes (R11.13).
pub fn hall_wave_samples(bytes: &[u8], tag: u32, out: &mut [f32])
    ensures { out.new ≡ floats_of tag (length out.old) bytes.now }
{
    wave::floats(bytes, tag, out)
}
