// Studio takes.
ghost use Rattle.std.specs.Prelude.{◌≡◌, length};
ghost use Rattle.wave.specs.Reading.{reading};
ghost use Rattle.wave.specs.Floats.{floats_of};
ghost use Rattle.hall.specs.Face.{faced_wave};

use hall::HallWave;

// Reads a RIFF/WAVE file (R11.14).
#[unsafe(no_mangle)]
pub extern "C" fn hall_wave_read(file: &[u8]) -> HallWave
    ensures { result ≡ faced_wave (reading file.now) }
{
    hall::hall_wave_read(file)
}

// Fills `out` with the floats of a take's bytes (R11.13).
#[unsafe(no_mangle)]
pub extern "C" fn hall_wave_samples(bytes: &[u8], tag: u32, out: &mut [f32])
    ensures { out.new ≡ floats_of tag (length out.old) bytes.now }
{
    hall::hall_wave_samples(bytes, tag, out)
}
