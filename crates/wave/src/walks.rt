// The walk over a file's chunks to its data, and what is read there.
ghost use Rattle.std.specs.Prelude.{◌≡◌, ◌≤◌, ◌<◌, length, drop, None};
ghost use Rattle.wave.specs.Chunks.{block_of};
ghost use Rattle.wave.specs.Reading.{data_read, walk, most_bytes};
ghost use Rattle.wave.specs.Workers.{MetOk};

use crate::chunks::{WHOLE_NUMBERS, complete, is_data, let_by, met_after, padded, size_of};
use crate::{ReadRefusal, Reading, Take, WaveFormat};

// How many bytes one sample of each channel takes (R11.7).
fn block(f: WaveFormat) -> usize
    ensures { result ≡ block_of f }
{
    let channels = f.channels as usize;
    if f.tag == WHOLE_NUMBERS {
        channels * 2
    } else {
        channels * 4
    }
}

// What is read of data of so many bytes, with the format met before it (R11.7, R11.11).
fn data_read(met: Option<WaveFormat>, at: usize, size: usize) -> Reading
    requires at_small { at < 4294967296 }
    requires met_ok { MetOk met }
    ensures { result ≡ data_read met at size }
{
    let Some(format) = met else {
        return Err(ReadRefusal::NoFormat(at));
    };
    if size % block(format) != 0 {
        return Err(ReadRefusal::Unsupported(at));
    }
    Ok(Take {
        format,
        first: at + 8,
        len: size,
    })
}

// Walks from chunk to chunk, from byte 12 on, to the data or the first refusal (R11.3, R11.4, R11.9).
pub(crate) fn walk(file: &[u8]) -> Reading
    requires file_begun { 12 ≤ length file.now }
    requires file_short { length file.now ≤ most_bytes }
    ensures { result ≡ walk 0 None 12 (drop 12 file.now) }
{
    let mut met = None;
    let mut at = 12usize;
    // Kept (3): `at` is a place in the file, which a refusal names, and goes on by the size that each
    // chunk says of itself: no iterator of std goes so.
    while at + 8 <= file.len() {
        let chunk = &file[at..];
        if !complete(chunk) {
            return Err(ReadRefusal::PastEnd(at));
        }
        if is_data(chunk) {
            return data_read(met, at, size_of(chunk));
        }
        if !let_by(met, chunk) {
            return Err(ReadRefusal::Unsupported(at));
        }
        met = met_after(met, chunk);
        at += 8 + padded(size_of(chunk));
    }
    Err(ReadRefusal::NoData)
}
