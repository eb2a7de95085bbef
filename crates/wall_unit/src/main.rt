// The program (R9): takes floats from standard input, the lowest byte first, and writes what the wall
// unit makes of them, frame by frame, and then the tail.
//
// What lies between a read and a write is `shell`'s, with a contract. No contract can say which
// bytes are read or written.
#![tactic(auto)]

ghost use Rattle.std.specs.Prelude.{◌≤◌, length};

use shell::{BYTES, STORE, WORK};
use std::alloc::Global;
use std::io;
use std::io::Read;
use std::process::ExitCode;
use unit::State;

// A read or a write failed, and standard error says so.
#[derive(Clone, Copy)]
struct Failed;

// The wall unit with its memory.
#[derive(Drop)]
struct WallUnit {
    state: State,
    store: [f32; STORE],
    work: [f32; WORK],
}

impl WallUnit {
    // A unit in which nothing has sounded yet (R9.1).
    fn start() -> WallUnit {
        let mut store = [0.0f32; STORE];
        let state = shell::start(&mut store).state;
        let work = [0.0f32; WORK];
        WallUnit { state, store, work }
    }

    // The bytes of the frame that it makes of a frame of input.
    fn input_frame(&mut self, bytes: &[u8]) -> [u8; BYTES] {
        let mut out = [0u8; BYTES];
        let (store, work) = (&mut self.store, &mut self.work);
        self.state = shell::input_frame(self.state, bytes, store, work, &mut out).state;
        out
    }

    // The bytes of a frame of its tail.
    fn tail_frame(&mut self) -> [u8; BYTES] {
        let mut out = [0u8; BYTES];
        let (store, work) = (&mut self.store, &mut self.work);
        self.state = shell::tail_frame(self.state, store, work, &mut out).state;
        out
    }
}

// What the program reads and writes by, and how its input ended, where it has.
#[derive(Drop)]
struct Ends<'a, T: Print + Eprint, R: Read + Drop> {
    rt: &'a T,
    alloc: Global,
    input: R,
    ended: Result<(), Failed>,
}

impl<T: Print + Eprint, R: Read + Drop> Ends<'_, T, R> {
    // Says on standard error why a read or a write failed (R9.15); with the number where there is no
    // memory for the words alone.
    fn say(&self, end: &str, e: io::Error) -> Failed {
        let _ = match format!(in self.alloc; "{e}") {
            Ok(text) => {
                let said = words(&text);
                eprintln!(self.rt; "wall_unit: {end}: {said}")
            }
            Err(_) => eprintln!(self.rt; "wall_unit: {end}: {e}"),
        };
        Failed
    }

    // Reads until a frame is full or the input ends, over as many reads as that takes, and gives how many
    // bytes came. A read that fails is said, and ends the input (R9.15).
    fn get(&mut self, bytes: &mut [u8]) -> usize
        ensures { result ≤ length bytes.old }
    {
        let mut n = 0usize;
        while n < bytes.len() {
            match self.input.read(&mut bytes[n..]) {
                Ok(0) => break,
                Ok(more) => n += more,
                Err(e) => {
                    self.ended = Err(self.say("standard input", e));
                    break;
                }
            }
        }
        n
    }

    // Writes a frame. A write that fails is said (R9.15).
    fn put(&self, out: &[u8; BYTES]) -> Result<(), Failed> {
        self.rt
            .write_all(out)
            .map_err(|e| self.say("standard output", e))
    }

    // All frames of input (R9.5), or fewer where one can't be written. The last may be short, and fewer
    // bytes than a sample's are none (R9.7). Nothing says that the input ends, so the turns are counted
    // to a number that no run uses up.
    fn frames(&mut self, unit: &mut WallUnit) -> Result<(), Failed> {
        for _ in 0..u64::MAX {
            let mut bytes = [0u8; BYTES];
            let n = self.get(&mut bytes);
            if n < 4 {
                break;
            }
            self.put(&unit.input_frame(&bytes[..n]))?;
            if n < BYTES {
                break;
            }
        }
        Ok(())
    }

    // The frames of the tail (R9.13), or fewer where one can't be written.
    fn tails(&self, unit: &mut WallUnit) -> Result<(), Failed> {
        for _ in 0..shell::tail_calls(unit.state.count) {
            self.put(&unit.tail_frame())?;
        }
        Ok(())
    }

    // The whole program: the tail is played where a read failed too.
    fn play(&mut self) -> Result<(), Failed> {
        let mut unit = WallUnit::start();
        self.frames(&mut unit)?;
        self.tails(&mut unit)?;
        self.ended
    }
}

// What the system says of a failed read or write, without the number that stands behind it.
fn words(text: &str) -> &str {
    text.split_once(" (os error ")
        .map_or(text, |(said, _)| said)
}

// Ends with status 1 where a read or a write failed.
fn main(rt: HostRuntime) -> ExitCode {
    let mut ends = Ends {
        rt: &rt,
        alloc: rt.alloc(),
        input: rt.reader(),
        ended: Ok(()),
    };
    match ends.play() {
        Ok(()) => ExitCode::SUCCESS,
        Err(Failed) => ExitCode::FAILURE,
    }
}
