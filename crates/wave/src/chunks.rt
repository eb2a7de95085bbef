// A chunk of a file, given as the bytes from its place to the file's end: its name, its size, the
// format in it.
//
// Kept (5): that the bytes at a distance are there is a fact of the slice lent. A struct of a slice with enough bytes would be one for each distance asked.
ghost use Rattle.std.specs.Prelude.{◌≡◌, true, ◌+◌, ◌%◌, ◌<◌, ◌≤◌, length};
ghost use Rattle.wave.specs.Chunks.{begins, data_name, number_at, size_of, complete, format_of, tag_ok, supported, is_first, let_by, met_after};

use crate::WaveFormat;

// The tags that are read: of whole numbers and of floats (R11.6).
pub(crate) const WHOLE_NUMBERS: u32 = 1;

const FLOATS: u32 = 3;

// The fewest bytes of a format, and the most channels (R11.6).
const LEAST_FORMAT: usize = 16;

const MOST_CHANNELS: u32 = 16;

// The number of two bytes at a distance (R11.1).
fn two_at(chunk: &[u8], at: usize) -> u32
    requires { at + 2 ≤ length chunk.now }
    ensures { result ≡ number_at 2 at chunk.now }
{
    u32::from(u16::from_le_bytes([chunk[at], chunk[at + 1]]))
}

// The number of four bytes at a distance (R11.1).
fn four_at(chunk: &[u8], at: usize) -> u32
    requires { at + 4 ≤ length chunk.now }
    ensures { result ≡ number_at 4 at chunk.now }
{
    u32::from_le_bytes([chunk[at], chunk[at + 1], chunk[at + 2], chunk[at + 3]])
}

// Whether bytes begin with those of a name (R11.1).
pub(crate) fn begins(name: &[u8], bytes: &[u8]) -> bool
    ensures { result ≡ begins name.now bytes.now }
{
    bytes.starts_with(name)
}

// Whether a chunk is the data (R11.4).
pub(crate) fn is_data(chunk: &[u8]) -> bool
    ensures { result ≡ begins data_name chunk.now }
{
    begins(b"data", chunk)
}

// How many bytes the body of a chunk has (R11.3).
pub(crate) fn size_of(chunk: &[u8]) -> usize
    requires { 8 ≤ length chunk.now }
    ensures { (result ≡ size_of chunk.now) × (result < 4294967296) }
{
    four_at(chunk, 4) as usize
}

// So many bytes with their pad byte, which stands behind an odd number of them (R11.3).
pub(crate) fn padded(size: usize) -> usize
    requires { size < 4294967296 }
    ensures { result ≡ size + size % 2 }
{
    size + size % 2
}

// Whether all bytes of a chunk are there (R11.3).
#[tactic(auto, unfolding(crate::specs::Chunks::complete))]
pub(crate) fn complete(chunk: &[u8]) -> bool
    requires { 8 ≤ length chunk.now }
    ensures { result ≡ complete chunk.now }
{
    8 + size_of(chunk) <= chunk.len()
}

// The format in a chunk (R11.5).
#[tactic(auto, unfolding(crate::specs::Chunks::format_of))]
fn format_of(chunk: &[u8]) -> WaveFormat
    requires { 24 ≤ length chunk.now }
    ensures { result ≡ format_of chunk.now }
{
    WaveFormat {
        rate: four_at(chunk, 12),
        channels: two_at(chunk, 10),
        tag: two_at(chunk, 8),
    }
}

// Whether samples of that tag and width are read (R11.6).
fn tag_ok(tag: u32, width: u32) -> bool
    ensures { result ≡ tag_ok tag width }
{
    if tag == WHOLE_NUMBERS {
        width == 16
    } else {
        (tag == FLOATS) & (width == 32)
    }
}

// Whether the format in a chunk is supported (R11.6).
#[tactic(auto, unfolding(crate::specs::Chunks::supported))]
fn supported(chunk: &[u8]) -> bool
    requires { 8 + size_of chunk.now ≤ length chunk.now }
    ensures { result ≡ supported chunk.now }
{
    if size_of(chunk) < LEAST_FORMAT {
        return false;
    }
    let f = format_of(chunk);
    let width = two_at(chunk, 22);
    ((1 <= f.channels) & (f.channels <= MOST_CHANNELS)) & tag_ok(f.tag, width)
}

// Whether a chunk is the first format (R11.5). By `match`: asked by `is_none`, the format goes packed from chunk to chunk.
fn is_first(met: Option<WaveFormat>, chunk: &[u8]) -> bool
    ensures { result ≡ is_first met chunk.now }
{
    match met {
        None => begins(b"fmt ", chunk),
        Some(_) => false,
    }
}

// Whether a chunk before the data is let by: the first format is judged (R11.6).
pub(crate) fn let_by(met: Option<WaveFormat>, chunk: &[u8]) -> bool
    requires { 8 + size_of chunk.now ≤ length chunk.now }
    ensures { result ≡ let_by met chunk.now }
{
    !is_first(met, chunk) || supported(chunk)
}

// The format met after a chunk that was let by (R11.5).
pub(crate) fn met_after(met: Option<WaveFormat>, chunk: &[u8]) -> Option<WaveFormat>
    requires in_bounds { 8 + size_of chunk.now ≤ length chunk.now }
    requires was_let_by { let_by met chunk.now ≡ true }
    ensures { result ≡ met_after met chunk.now }
{
    if is_first(met, chunk) {
        Some(format_of(chunk))
    } else {
        met
    }
}
