// Buffers of several channels, each one slice, channel after channel: interleaved and back, a single
// channel handed out, and what a call that is lent one or two of them refuses; and what a count of
// frames says of the tail.
#![tactic(auto)]

ghost use Rattle.std.specs.Prelude.{◌≡◌, [], ◌*◌, ◌<◌, length, take, drop};
ghost use Rattle.samples.specs.Answers.{Accepted, accept};
ghost use Rattle.audio_buffer.specs.Verdict.{verdict_of};
ghost use Rattle.audio_buffer.specs.Judges.{channels_ok, judged_buffer_then, judged_two, judged_channel};
ghost use Rattle.audio_buffer.specs.Layout.{first_of_each, columns, interleaved, deinterleaved};

use samples::{Answer, Frames, Refusal, need};

// Whether a unit still sounds after its input has ended.
#[derive(Clone, Copy, Debug, PartialEq, Eq)]
pub enum AudioEffectState {
    TailRemaining,
    TailComplete,
}

// The most channels that a buffer has, and the most samples of each.
const MOST_CHANNELS: usize = 16;

pub const MOST_SAMPLES: usize = 65536;

// What a count of frames says of the tail (R4.22).
// Kept (4): no plainer. The definition has the name, and `AudioEffectState::from(count)` at each call would hide that a count is judged.
pub fn verdict(count: Frames) -> AudioEffectState
    ensures { result ≡ verdict_of count.0 }
{
    if 0 < count.0 {
        AudioEffectState::TailRemaining
    } else {
        AudioEffectState::TailComplete
    }
}

// Whether a buffer may have that many channels.
#[tactic(auto, unfolding(crate::specs::Judges::channels_ok))]
fn channels_ok(channels: usize) -> bool
    ensures { result ≡ channels_ok channels }
{
    (1 <= channels) & (channels <= MOST_CHANNELS)
}

// Judges the counts, then the length of a slice that is to hold them (R7.10, R7.11).
#[tactic(auto, unfolding(crate::specs::Judges::judged_buffer_then))]
pub fn judge_buffer(channels: usize, samples: usize, len: usize) -> Answer
    ensures { result ≡ judged_buffer_then channels samples len Accepted }
{
    need(
        channels_ok(channels) & (samples <= MOST_SAMPLES),
        Refusal::BadIndex,
    )?;
    need(len == channels * samples, Refusal::BadLength)
}

// Judges a call that is lent two buffers of one size (R7.10, R7.11).
#[tactic(auto, unfolding(crate::specs::Judges::judged_buffer_then))]
pub fn judge_two(channels: usize, samples: usize, len: usize, other: usize) -> Answer
    ensures { result ≡ judged_two channels samples len other }
{
    judge_buffer(channels, samples, len)?;
    judge_buffer(channels, samples, other)
}

// Writes the columns of `rows` rows of `row` samples, one column after another.
// Kept (3): a column goes by its index, and std says nothing of what `chunks_mut` leaves.
fn transpose(rows: usize, row: usize, source: &[f32], target: &mut [f32])
    requires { (length source.now ≡ rows * row) × (length target.old ≡ rows * row) }
    ensures { target.new ≡ columns row rows row source.now }
{
    for t in 0..row {
        let at = t * rows;
        write_column(row, t, source, &mut target[at..at + rows]);
    }
}

// Writes column t of rows of `row` samples, a sample of each.
// Kept (3): zipped with the samples read, `iter_mut` leaves no proof of what was written.
fn write_column(row: usize, t: usize, source: &[f32], column: &mut [f32])
    requires { (t < row) × (length source.now ≡ length column.old * row) }
    ensures { column.new ≡ first_of_each row (length column.old) (drop t source.now) }
{
    for (r, sample) in column.iter_mut().enumerate() {
        *sample = source[t + r * row];
    }
}

// Writes a buffer frame after frame (R7.2).
#[tactic(auto, using(crate::proofs::Laws::two_of))]
pub fn write_interleaved(
    channels: usize,
    samples: usize,
    buffer: &[f32],
    target: &mut [f32],
) -> Answer
    ensures value { result ≡ judged_two channels samples (length buffer.now) (length target.old) }
    ensures target_after { target.new ≡ accept (judged_two channels samples (length buffer.now) (length target.old)) (interleaved channels samples buffer.now) target.old }
{
    judge_two(channels, samples, buffer.len(), target.len())?;
    transpose(channels, samples, buffer, target);
    Ok(())
}

// Reads a buffer that lies frame after frame (R7.3).
#[tactic(auto, using(crate::proofs::Laws::two_of))]
pub fn read_interleaved(
    channels: usize,
    samples: usize,
    source: &[f32],
    buffer: &mut [f32],
) -> Answer
    ensures value { result ≡ judged_two channels samples (length source.now) (length buffer.old) }
    ensures buffer_after { buffer.new ≡ accept (judged_two channels samples (length source.now) (length buffer.old)) (deinterleaved channels samples source.now) buffer.old }
{
    judge_two(channels, samples, source.len(), buffer.len())?;
    transpose(samples, channels, source, buffer);
    Ok(())
}

// Judges the request for one channel of a buffer that is `len` samples long (R7.13).
#[tactic(auto, unfolding(crate::specs::Judges::judged_buffer_then))]
pub fn channel_number(channels: usize, samples: usize, channel: usize, len: usize) -> Answer
    ensures { result ≡ judged_channel channels samples channel len }
{
    judge_buffer(channels, samples, len)?;
    need(channel < channels, Refusal::BadIndex)
}

// Hands out one channel: the buffer's own stretch, or the empty one where `channel_number`
// refuses (R7.8, R7.9).
pub fn channel(buffer: &[f32], channels: usize, samples: usize, channel: usize) -> &[f32]
    ensures { result.now ≡ accept (judged_channel channels samples channel (length buffer.now)) (take samples (drop (channel * samples) buffer.now)) [] }
{
    match channel_number(channels, samples, channel, buffer.len()) {
        Ok(()) => {
            let at = channel * samples;
            &buffer[at..at + samples]
        }
        Err(_) => &buffer[..0],
    }
}
