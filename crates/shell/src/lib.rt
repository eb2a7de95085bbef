// The program between its reads and its writes: what it is set to, and one frame, from bytes to bytes.
//
// Its contracts cite `specs/`: how a frame of input and a frame of the tail end, the bytes written, and
// the settings.
#![tactic(auto)]

mod settings;

ghost use Rattle.std.specs.Prelude.{◌≡◌, length};
ghost use Rattle.unit.specs.UnitState.{of_state};
ghost use Rattle.machine.specs.Ending.{outcome_of};
ghost use Rattle.shell.specs.Settings.{work_floats};
ghost use Rattle.shell.specs.Frames.{input_ends, tail_ends, said};

pub use settings::{BYTES, FRAME, STORE, WORK, coefficients, start, tail_calls, times};
use unit::{Outcome, State};

// A frame of input. The row of the output begins as +0, and a refused call leaves it (R9.5 to R9.9). The
// work memory is as long as such a frame asks (R9.2).
pub fn input_frame(
    s: State,
    bytes: &[u8],
    store: &mut [f32; STORE],
    work: &mut [f32; WORK],
    out: &mut [u8; BYTES],
) -> Outcome
    ensures value { result ≡ outcome_of (input_ends (of_state s) bytes.now store.old work.old) }
    ensures store_after { store.new ≡ (input_ends (of_state s) bytes.now store.old work.old).memory.store }
    ensures work_after { work.new ≡ (input_ends (of_state s) bytes.now store.old work.old).memory.work }
    ensures out_after { out.new ≡ said (input_ends (of_state s) bytes.now store.old work.old) }
    ensures work_len { length work.old ≡ work_floats }
{
    let mut input = [0.0f32; FRAME];
    wire::decode(bytes, &mut input);
    let mut output = [0.0f32; FRAME];
    let a = reverb::apply(
        s,
        times(),
        &coefficients(),
        &input,
        store,
        work,
        &mut output,
    );
    wire::encode(&output, out);
    a
}

// A frame of the tail, likewise (R9.8, R9.9).
pub fn tail_frame(
    s: State,
    store: &mut [f32; STORE],
    work: &mut [f32; WORK],
    out: &mut [u8; BYTES],
) -> Outcome
    ensures value { result ≡ outcome_of (tail_ends (of_state s) store.old work.old) }
    ensures store_after { store.new ≡ (tail_ends (of_state s) store.old work.old).memory.store }
    ensures work_after { work.new ≡ (tail_ends (of_state s) store.old work.old).memory.work }
    ensures out_after { out.new ≡ said (tail_ends (of_state s) store.old work.old) }
{
    let mut row = [0.0f32; FRAME];
    let a = reverb::tail(s, store, work, &mut row);
    wire::encode(&row, out);
    a
}
