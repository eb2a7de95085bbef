// Buffers of several channels, each one slice, channel after channel: made silent, scaled, mixed, and
// brought down to one channel.
//
// Its contracts cite `specs/`: what scaling and mixing give, and what the calls refuse.
#![tactic(auto)]

ghost use Rattle.std.specs.Prelude.{◌≡◌, ◌*◌, ◌≤◌, length, replicate};
ghost use Rattle.samples.specs.Binary32.{+0};
ghost use Rattle.samples.specs.Answers.{accept};
ghost use Rattle.audio_buffer.specs.Judges.{judged_two};
ghost use Rattle.levels.specs.Judges.{judged_one, judged_downmix};
ghost use Rattle.levels.specs.Levels.{scaled, buffers_mixed, channels_summed, downmixed};

use audio_buffer::{MOST_SAMPLES, judge_buffer, judge_two};
use samples::{Answer, Refusal, clear, need};

// Judges a downmix of a buffer of `len` samples to an output of `output`.
#[tactic(auto, unfolding(crate::specs::Judges::judged_downmix))]
fn judge_downmix(channels: usize, samples: usize, len: usize, output: usize) -> Answer
    ensures { result ≡ judged_downmix channels samples len output }
{
    need(samples <= MOST_SAMPLES, Refusal::BadIndex)?;
    need(output == samples, Refusal::BadLength)?;
    judge_buffer(channels, samples, len)
}

// Multiplies each sample by a volume.
// Kept (2): `mixer` multiplies a row and adds one too, by workers of its own. No plainer: a public function for both would have promises and edits of its own, for one line.
fn amplify(volume: f32, xs: &mut [f32])
    ensures { xs.new ≡ scaled volume xs.old }
{
    for x in xs.iter_mut() {
        *x *= volume;
    }
}

// Adds each sample to the other row's sample at its place.
// Kept (3): tried with `zip`, and the proof did not close: after it the samples of a row that is written are not known.
fn add(xs: &[f32], other: &mut [f32])
    requires { length xs.now ≡ length other.old }
    ensures { other.new ≡ buffers_mixed xs.now other.old }
{
    for (i, y) in other.iter_mut().enumerate() {
        *y += xs[i];
    }
}

// Adds every channel of a buffer to a row, in order.
// Kept (3): no plainer. By `chunks`, which takes no size of 0, channels of no samples would need a case of their own, and the definition counts channels.
fn add_channels(channels: usize, samples: usize, buffer: &[f32], row: &mut [f32])
    requires { (length buffer.now ≡ channels * samples) × (length row.old ≡ samples) }
    ensures { row.new ≡ channels_summed samples channels row.old buffer.now }
{
    for i in 0..channels {
        let at = i * samples;
        add(&buffer[at..at + samples], row);
    }
}

// Writes the mean of a buffer's channels.
#[tactic(auto, unfolding(crate::specs::Levels::share, crate::specs::Levels::downmixed))]
fn average(channels: usize, samples: usize, buffer: &[f32], output: &mut [f32])
    requires { (channels ≤ 16) × (length buffer.now ≡ channels * samples) × (length output.old ≡ samples) }
    ensures { output.new ≡ downmixed channels samples buffer.now }
{
    let share = 1.0 / channels as f32;
    clear(output);
    add_channels(channels, samples, buffer, output);
    amplify(share, output);
}

// Sets every sample of a buffer to +0 (R7.4).
pub fn make_silent(channels: usize, samples: usize, buffer: &mut [f32]) -> Answer
    ensures value { result ≡ judged_one channels samples (length buffer.old) }
    ensures buffer_after { buffer.new ≡ accept (judged_one channels samples (length buffer.old)) (replicate (length buffer.old) +0) buffer.old }
{
    judge_buffer(channels, samples, buffer.len())?;
    clear(buffer);
    Ok(())
}

// Multiplies every sample of a buffer by a volume (R7.5).
pub fn scale(channels: usize, samples: usize, volume: f32, buffer: &mut [f32]) -> Answer
    ensures value { result ≡ judged_one channels samples (length buffer.old) }
    ensures buffer_after { buffer.new ≡ accept (judged_one channels samples (length buffer.old)) (scaled volume buffer.old) buffer.old }
{
    judge_buffer(channels, samples, buffer.len())?;
    amplify(volume, buffer);
    Ok(())
}

// Adds a buffer to another (R7.6).
#[tactic(auto, using(audio_buffer::proofs::Laws::two_of))]
pub fn mix(channels: usize, samples: usize, buffer: &[f32], other: &mut [f32]) -> Answer
    ensures value { result ≡ judged_two channels samples (length buffer.now) (length other.old) }
    ensures other_after { other.new ≡ accept (judged_two channels samples (length buffer.now) (length other.old)) (buffers_mixed buffer.now other.old) other.old }
{
    judge_two(channels, samples, buffer.len(), other.len())?;
    add(buffer, other);
    Ok(())
}

// Brings a buffer down to one channel, the mean of its channels (R7.7).
#[tactic(auto, using(crate::proofs::Laws::downmix_of))]
pub fn downmix(channels: usize, samples: usize, buffer: &[f32], output: &mut [f32]) -> Answer
    ensures value { result ≡ judged_downmix channels samples (length buffer.now) (length output.old) }
    ensures output_after { output.new ≡ accept (judged_downmix channels samples (length buffer.now) (length output.old)) (downmixed channels samples buffer.now) output.old }
{
    judge_downmix(channels, samples, buffer.len(), output.len())?;
    average(channels, samples, buffer, output);
    Ok(())
}
