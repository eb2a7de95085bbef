// The records as they come from standard input, and what is compared with them.
ghost use Rattle.std.specs.Prelude.{◌<◌, ◌≤◌, IfOk, length};

use delay::Cursors;
use std::io::Read;
use std::{fmt, io};
use unit::{DELAYS_AND_RINGS, LINES};

// The bytes of the longest row, the store of frames of 1,024.
const ROOM: usize = 4 * (DELAYS_AND_RINGS + LINES * 1024);

// The kinds of records.
#[derive(Clone, Copy, PartialEq)]
pub(crate) enum Kind {
    Unit,
    ApplyNew,
    Apply,
    Tail,
    Reset,
    Kept,
    Unknown,
}

impl From<u32> for Kind {
    fn from(number: u32) -> Kind {
        match number {
            1 => Kind::Unit,
            2 => Kind::ApplyNew,
            3 => Kind::Apply,
            4 => Kind::Tail,
            5 => Kind::Reset,
            6 => Kind::Kept,
            _ => Kind::Unknown,
        }
    }
}

// The call that a kind of record is of.
impl fmt::Display for Kind {
    fn fmt<W: fmt::Write>(&self, f: &mut fmt::Formatter<W>) -> fmt::Result {
        f.write_str(match self {
            Kind::Unit => "fresh",
            Kind::ApplyNew | Kind::Apply => "apply",
            Kind::Tail => "tail",
            Kind::Reset => "reset",
            Kind::Kept | Kind::Unknown => "what is kept",
        })
    }
}

// What a record begins with: its kind, and the five numbers that a kind may have.
#[derive(Clone, Copy)]
pub(crate) struct Record {
    pub(crate) kind: Kind,
    pub(crate) numbers: [u32; 5],
}

// Where a number of a record isn't the Rust's.
#[derive(Clone, Copy)]
pub(crate) struct Difference {
    kind: Kind,
    field: &'static str,
    index: usize,
    ours: u64,
    theirs: u32,
}

impl fmt::Display for Difference {
    fn fmt<W: fmt::Write>(&self, f: &mut fmt::Formatter<W>) -> fmt::Result {
        let Difference {
            kind,
            field,
            index,
            ours,
            theirs,
        } = *self;
        write!(
            f,
            "{kind}: {field} {index}: {ours:08x} here, {theirs:08x} from the Rust"
        )
    }
}

// Why a replay stops: the input ends, a record isn't whole or of no kind known, a number differs, or a
// read failed.
#[derive(Drop)]
pub(crate) enum Stop {
    End,
    Cut,
    Different(Difference),
    Io(io::Error),
}

impl From<io::Error> for Stop {
    fn from(e: io::Error) -> Stop {
        Stop::Io(e)
    }
}

// How many records have begun, the kind of the last, and how many numbers were compared.
#[derive(Clone, Copy)]
pub(crate) struct Count {
    pub(crate) records: u64,
    kind: Kind,
    pub(crate) numbers: u64,
}

impl Count {
    // Compares one number.
    pub(crate) fn same(
        &mut self,
        field: &'static str,
        index: usize,
        ours: u64,
        theirs: u32,
    ) -> Result<(), Stop> {
        self.numbers = self.numbers.wrapping_add(1);
        if ours == u64::from(theirs) {
            return Ok(());
        }
        Err(Stop::Different(Difference {
            kind: self.kind,
            field,
            index,
            ours,
            theirs,
        }))
    }
}

// The input, room for a row's bytes, and how far the replay is.
#[derive(Drop)]
pub(crate) struct Tape<R: Read + Drop> {
    input: R,
    room: [u8; ROOM],
    pub(crate) count: Count,
}

impl<R: Read + Drop> Tape<R> {
    // A replay of which no record has begun.
    pub(crate) fn new(input: R) -> Self {
        Tape {
            input,
            room: [0u8; ROOM],
            count: Count {
                records: 0,
                kind: Kind::Unknown,
                numbers: 0,
            },
        }
    }

    // The next record, as its first eight numbers say, of which the last two are 0 in every kind.
    pub(crate) fn next(&mut self) -> Result<Record, Stop> {
        let mut head = [[0u8; 4]; 8];
        match read_full(&mut self.input, head.as_flattened_mut())? {
            0 => return Err(Stop::End),
            32 => {}
            _ => return Err(Stop::Cut),
        }
        let [kind, a, b, c, d, e, _, _] = head.map(u32::from_le_bytes);
        let kind = Kind::from(kind);
        self.count.records = self.count.records.wrapping_add(1);
        self.count.kind = kind;
        Ok(Record {
            kind,
            numbers: [a, b, c, d, e],
        })
    }

    // Fills a row from the input.
    pub(crate) fn fill(&mut self, row: &mut [f32]) -> Result<(), Stop> {
        let bytes = self.room.get_mut(..4 * row.len()).ok_or(Stop::Cut)?;
        read_whole(&mut self.input, bytes)?;
        wire::decode(bytes, row);
        Ok(())
    }

    // Compares a ring's read and write cursor with the next two numbers of the input.
    pub(crate) fn same_cursors(&mut self, ring: usize, c: Cursors) -> Result<(), Stop> {
        let mut both = [[0u8; 4]; 2];
        read_whole(&mut self.input, both.as_flattened_mut())?;
        let [read, write] = both.map(u32::from_le_bytes);
        let count = &mut self.count;
        count.same("read cursor of ring", ring, c.read.0 as u64, read)?;
        count.same("write cursor of ring", ring, c.write.0 as u64, write)
    }

    // Compares a row with the next numbers of the input. `at` is what its first float is called.
    pub(crate) fn same_row(
        &mut self,
        field: &'static str,
        at: usize,
        row: &[f32],
    ) -> Result<(), Stop> {
        let bytes = self.room.get_mut(..4 * row.len()).ok_or(Stop::Cut)?;
        read_whole(&mut self.input, bytes)?;
        let (words, _) = bytes.as_chunks::<4>();
        for (i, (x, word)) in row.iter().zip(words).enumerate() {
            let ours = u64::from(wire::bits(*x));
            let theirs = u32::from_le_bytes(*word);
            self.count.same(field, at.wrapping_add(i), ours, theirs)?;
        }
        Ok(())
    }
}

// Fills the room from the input, over as many reads as that takes.
fn read_whole<R: Read>(input: &mut R, room: &mut [u8]) -> Result<(), Stop> {
    if read_full(input, room)? == room.len() {
        Ok(())
    } else {
        Err(Stop::Cut)
    }
}

// Reads until the room is full or the input ends, over as many reads as that takes, and gives how many bytes came.
// Kept (2): `wall_unit` has such a loop too, but there a failed read leaves the bytes before it, and is said; a loop
// for both would give a count and an error side by side, and no crate below both reads or writes.
fn read_full<R: Read>(input: &mut R, room: &mut [u8]) -> io::Result<usize>
    ensures { IfOk result (λ n. n ≤ length room.old) }
{
    let mut n = 0usize;
    while n < room.len() {
        let more = input.read(&mut room[n..])?;
        if more == 0 {
            break;
        }
        n += more;
    }
    Ok(n)
}
