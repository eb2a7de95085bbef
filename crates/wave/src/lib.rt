// Studio takes: RIFF/WAVE files, read from bytes that the caller lends.
//
// `read` walks from chunk to chunk to the data, `data` hands that out as the caller's own stretch,
// and `floats` makes samples of it. The contracts cite `specs/`: chunks and format, the walk and
// what is read, the floats of bytes.
#![tactic(auto)]

mod chunks;
mod pcm;
mod walks;

ghost use Rattle.std.specs.Prelude.{◌≡◌};
ghost use Rattle.wave.specs.Reading.{is_wave, reading, read_number, read_place, take_of, data_in};

use chunks::begins;
pub use pcm::floats;
use walks::walk;

// What a `fmt ` chunk says of the samples (R11.5).
// Kept (1): `tag` is a number, and no enum of kinds: it is what the file says, and C reads this struct.
#[repr(C)]
#[derive(Clone, Copy, Debug, PartialEq, Eq)]
pub struct WaveFormat {
    pub rate: u32,
    pub channels: u32,
    pub tag: u32,
}

// A take: its format, and where its data lies in the file (R11.11).
#[repr(C)]
#[derive(Clone, Copy, Debug, PartialEq, Eq)]
pub struct Take {
    pub format: WaveFormat,
    pub first: usize,
    pub len: usize,
}

// Why there is no take in a file, and at which chunk. `read_number` gives each case its number (R11.8).
#[derive(Clone, Copy, Debug, PartialEq, Eq)]
pub enum ReadRefusal {
    TooLong,
    NotWave,
    PastEnd(usize),
    NoFormat(usize),
    NoData,
    Unsupported(usize),
}

// What is read of a file (R11.8).
pub type Reading = Result<Take, ReadRefusal>;

// The most bytes of a file (R11.1).
const MOST_BYTES: usize = 1048576;

// No take (R11.11).
const NO_TAKE: Take = Take {
    format: WaveFormat {
        rate: 0,
        channels: 0,
        tag: 0,
    },
    first: 0,
    len: 0,
};

// The number of what was read, 0 for a take (R11.8).
// Kept (4): the number is C's, and an enum of which some cases carry a place has none to cast.
pub fn read_number(r: Reading) -> u32
    ensures { result ≡ read_number r }
{
    match r {
        Ok(_) => 0,
        Err(ReadRefusal::TooLong) => 1,
        Err(ReadRefusal::NotWave) => 2,
        Err(ReadRefusal::PastEnd(_)) => 3,
        Err(ReadRefusal::NoFormat(_)) => 4,
        Err(ReadRefusal::NoData) => 5,
        Err(ReadRefusal::Unsupported(_)) => 6,
    }
}

// The place of the chunk that was refused, 0 where there is none (R11.8).
// Kept (4): it is one of the parts that C is answered, and no conversion of the whole.
pub fn read_place(r: Reading) -> usize
    ensures { result ≡ read_place r }
{
    match r {
        Err(ReadRefusal::PastEnd(at) | ReadRefusal::NoFormat(at) | ReadRefusal::Unsupported(at)) =>
            at,
        _ => 0,
    }
}

// The take that was read, all 0 where there is none (R11.11).
pub fn take_of(r: Reading) -> Take
    ensures { result ≡ take_of r }
{
    r.unwrap_or(NO_TAKE)
}

// Whether a file begins as a RIFF/WAVE does (R11.2).
fn is_wave(file: &[u8]) -> bool
    ensures { result ≡ is_wave file.now }
{
    12 <= file.len() && (begins(b"RIFF", file) && begins(b"WAVE", &file[8..]))
}

// Reads a file: a take, or the first refusal (R11.8, R11.9).
#[tactic(auto, unfolding(crate::specs::Reading::reading))]
pub fn read(file: &[u8]) -> Reading
    ensures { result ≡ reading file.now }
{
    if MOST_BYTES < file.len() {
        return Err(ReadRefusal::TooLong);
    }
    if !is_wave(file) {
        return Err(ReadRefusal::NotWave);
    }
    walk(file)
}

// Hands out a file's data: the file's own stretch, or the empty one where `read` refuses (R11.12).
pub fn data(file: &[u8]) -> &[u8]
    ensures { result.now ≡ data_in file.now }
{
    let t = take_of(read(file));
    &file[t.first..t.first + t.len]
}
