// Plays a recorded sample of the published Rust's answers again and compares every bit. It stops at the
// first difference and says where. README.md has the layout of the records.
#![tactic(auto)]

mod kept;
mod tape;
mod units;

use crate::tape::{Count, Kind, Stop, Tape};
use std::io;
use std::io::Read;

// Every unit until the input ends or one differs. Nothing says that the input ends, so the turns are
// counted to a number that no run uses up.
fn replay<R: Read + Drop>(tape: &mut Tape<R>) -> Result<(), Stop> {
    for _ in 0..u64::MAX {
        let record = tape.next()?;
        if record.kind != Kind::Unit {
            return Err(Stop::Cut);
        }
        units::unit(tape, record)?;
    }
    Ok(())
}

// Writes how much was compared, where all was equal, and else where it stopped.
fn main(rt: HostRuntime) -> io::Result<()> {
    let mut tape = Tape::new(rt.reader());
    let end = replay(&mut tape);
    let Count {
        records,
        numbers,
        ..
    } = tape.count;
    match end {
        Ok(()) | Err(Stop::End) => println!(rt;
            "replay: {records} records, {numbers} numbers, all as the Rust's"
        ),
        Err(Stop::Cut) => println!(rt; "replay: record {records} isn't whole, or of no kind known"),
        Err(Stop::Different(difference)) => println!(rt; "replay: record {records}, {difference}"),
        Err(Stop::Io(e)) => Err(e),
    }
}
