// Buffers of several channels.
ghost use Rattle.std.specs.Prelude.{◌≡◌, length, replicate};
ghost use Rattle.samples.specs.Binary32.{+0};
ghost use Rattle.samples.specs.Answers.{number_of, accept};
ghost use Rattle.audio_buffer.specs.Judges.{judged_two, judged_channel};
ghost use Rattle.audio_buffer.specs.Layout.{interleaved, deinterleaved};
ghost use Rattle.levels.specs.Judges.{judged_one, judged_downmix};
ghost use Rattle.levels.specs.Levels.{scaled, buffers_mixed, downmixed};

// Writes a buffer frame after frame (R7.2).
#[unsafe(no_mangle)]
pub extern "C" fn hall_interleave(
    channels: usize,
    samples: usize,
    buffer: &[f32],
    target: &mut [f32],
) -> u32
    ensures value { result ≡ number_of (judged_two channels samples (length buffer.now) (length target.old)) }
    ensures target_after { target.new ≡ accept (judged_two channels samples (length buffer.now) (length target.old)) (interleaved channels samples buffer.now) target.old }
{
    hall::hall_interleave(channels, samples, buffer, target)
}

// Reads a buffer that lies frame after frame (R7.3).
#[unsafe(no_mangle)]
pub extern "C" fn hall_deinterleave(
    channels: usize,
    samples: usize,
    source: &[f32],
    buffer: &mut [f32],
) -> u32
    ensures value { result ≡ number_of (judged_two channels samples (length source.now) (length buffer.old)) }
    ensures buffer_after { buffer.new ≡ accept (judged_two channels samples (length source.now) (length buffer.old)) (deinterleaved channels samples source.now) buffer.old }
{
    hall::hall_deinterleave(channels, samples, source, buffer)
}

// Sets every sample of a buffer to +0 (R7.4).
#[unsafe(no_mangle)]
pub extern "C" fn hall_make_silent(channels: usize, samples: usize, buffer: &mut [f32]) -> u32
    ensures value { result ≡ number_of (judged_one channels samples (length buffer.old)) }
    ensures buffer_after { buffer.new ≡ accept (judged_one channels samples (length buffer.old)) (replicate (length buffer.old) +0) buffer.old }
{
    hall::hall_make_silent(channels, samples, buffer)
}

// Multiplies every sample of a buffer by a volume (R7.5).
#[unsafe(no_mangle)]
pub extern "C" fn hall_scale(
    channels: usize,
    samples: usize,
    volume: f32,
    buffer: &mut [f32],
) -> u32
    ensures value { result ≡ number_of (judged_one channels samples (length buffer.old)) }
    ensures buffer_after { buffer.new ≡ accept (judged_one channels samples (length buffer.old)) (scaled volume buffer.old) buffer.old }
{
    hall::hall_scale(channels, samples, volume, buffer)
}

// Adds a buffer to another (R7.6).
#[unsafe(no_mangle)]
pub extern "C" fn hall_buffer_mix(
    channels: usize,
    samples: usize,
    buffer: &[f32],
    other: &mut [f32],
) -> u32
    ensures value { result ≡ number_of (judged_two channels samples (length buffer.now) (length other.old)) }
    ensures other_after { other.new ≡ accept (judged_two channels samples (length buffer.now) (length other.old)) (buffers_mixed buffer.now other.old) other.old }
{
    hall::hall_buffer_mix(channels, samples, buffer, other)
}

// Brings a buffer down to one channel, the mean of its channels (R7.7).
#[unsafe(no_mangle)]
pub extern "C" fn hall_downmix(
    channels: usize,
    samples: usize,
    buffer: &[f32],
    output: &mut [f32],
) -> u32
    ensures value { result ≡ number_of (judged_downmix channels samples (length buffer.now) (length output.old)) }
    ensures output_after { output.new ≡ accept (judged_downmix channels samples (length buffer.now) (length output.old)) (downmixed channels samples buffer.now) output.old }
{
    hall::hall_downmix(channels, samples, buffer, output)
}

// Judges the request for one channel of a buffer that is `len` samples long (R7.13).
#[unsafe(no_mangle)]
pub extern "C" fn hall_channel_number(
    channels: usize,
    samples: usize,
    channel: usize,
    len: usize,
) -> u32
    ensures { result ≡ number_of (judged_channel channels samples channel len) }
{
    hall::hall_channel_number(channels, samples, channel, len)
}
