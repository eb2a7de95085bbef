// Examples of frames, through the unit's calls: which frames a fresh unit takes (R9.28), and where the
// first echoes of a click fall (R9.27).
#![tactic(auto)]

use shell::{FRAME, STORE, WORK};
use std::io;
use unit::{DELAYS_AND_RINGS, LINES};

// The samples a second.
const RATE: u32 = 48000;

// Writes what a fresh unit answers for frames of that many samples, on a store of their length.
fn size(rt: &impl Print, frame: usize, store: &mut [f32]) -> io::Result<()> {
    let a = reverb::fresh(RATE, frame, store);
    let number = samples::number(a.answer);
    println!(rt; "a frame of {frame} is answered {number}")
}

// Writes the samples of a frame that are not exactly +0, by their bits. The frame's first is sample `at`.
fn show(rt: &impl Print, row: &[f32; FRAME], at: u32) -> io::Result<()> {
    for (i, x) in row.iter().enumerate() {
        if !samples::is_plus_zero(*x) {
            let sample = u64::from(at) + i as u64;
            let bits = wire::bits(*x);
            println!(rt; "sample {sample} is {bits:08x}")?;
        }
    }
    Ok(())
}

// A click, and three frames after it.
fn click(rt: &impl Print, store: &mut [f32; STORE], work: &mut [f32; WORK]) -> io::Result<()> {
    let fresh = shell::start(store);
    let cs = shell::coefficients();
    let mut click = [0.0f32; FRAME];
    click[0] = 1.0;
    let mut row = [0.0f32; FRAME];
    let first = reverb::apply(
        fresh.state,
        shell::times(),
        &cs,
        &click,
        store,
        work,
        &mut row,
    );
    show(rt, &row, 0)?;
    let mut state = first.state;
    for k in 1..4u32 {
        state = reverb::tail(state, store, work, &mut row).state;
        show(rt, &row, FRAME as u32 * k)?;
    }
    Ok(())
}

fn main(rt: HostRuntime) -> io::Result<()> {
    size(&rt, 4, &mut [0.0f32; DELAYS_AND_RINGS + LINES * 4])?;
    size(&rt, 1024, &mut [0.0f32; DELAYS_AND_RINGS + LINES * 1024])?;
    size(&rt, 0, &mut [0.0f32; DELAYS_AND_RINGS])?;
    size(&rt, 6, &mut [0.0f32; DELAYS_AND_RINGS + LINES * 6])?;
    size(&rt, 1028, &mut [0.0f32; DELAYS_AND_RINGS + LINES * 1028])?;
    click(&rt, &mut [0.0f32; STORE], &mut [0.0f32; WORK])
}
