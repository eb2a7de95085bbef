// The unit's state by value, when it is in range, and the sizes of the memory that it is lent.
//
// Its contracts cite `specs/`, over any model of the unit: the code here is the wall unit's.
#![tactic(auto)]

mod layout;
mod range;
mod room;
mod sizes;

ghost use Rattle.std.specs.Prelude.{◌≡◌};
ghost use Rattle.audio_buffer.specs.declared.AudioEffectState.TheVariants.{TailComplete};
ghost use Rattle.unit.specs.UnitState.{of_state, to_state};
ghost use Rattle.unit.specs.Outcome.{outcome};
ghost use Rattle.unit.specs.Fresh.{fresh_unit};
ghost use Rattle.unit.specs.Layout.{wall};

use audio_buffer::AudioEffectState;
use delay::Cursors;
use iir::Filter;
pub use layout::{
    ALLPASS_FLOATS, BANDS, COEFFICIENTS, DELAYS_AND_RINGS, DIVISOR, FACTOR, FILTERS, JOBS,
    LINE_MARK, LINES, MIX_MARK, OUTPUT_MARK, PASS_LENGTHS, PASS_RINGS, PER_FILTER, Places, ROWS,
    TONE, lengths, ring_place, work_places,
};
pub use range::in_range;
pub use room::{lent_ok, rings_hold, rings_of, room_ok};
use samples::{Answer, Frames, Samples};
pub use sizes::{is_store, is_total, store_ok, work_ok};

// All that the unit keeps beside its store (R1.26). `busy` says that a frame is open; `tail`, `marks`,
// `next` and `before` are held for that frame alone.
// Kept (1): `busy` stands beside what is held, and no `Option` holds it: C is lent this struct.
#[repr(C)]
#[derive(Clone, Copy)]
pub struct State {
    pub rate: u32,
    pub frame: usize,
    pub lines: [Cursors; LINES],
    pub passes: [Cursors; PASS_RINGS],
    pub count: Frames,
    pub filters: [Filter; FILTERS],
    pub busy: bool,
    pub tail: bool,
    pub marks: [bool; JOBS],
    pub next: Frames,
    pub before: [Filter; FILTERS],
}

// Rings of one kind: their lengths, and the cursors of each.
// Kept (6): two arrays and not one of pairs, as `unit: rings_with` and the definitions over it have lengths and cursors apart.
#[derive(Clone, Copy)]
pub struct RingsOf<const N: usize> {
    pub lengths: [usize; N],
    pub cursors: [Cursors; N],
}

// The rings of the lines, and the allpass rings.
pub type LineRings = RingsOf<LINES>;

pub type AllpassRings = RingsOf<PASS_RINGS>;

// The rings of a unit.
#[derive(Clone, Copy)]
pub struct Rings {
    pub lines: LineRings,
    pub passes: AllpassRings,
}

// The state of a unit in which nothing has sounded yet (R1.32).
pub fn fresh_state(rate: u32, frame: usize) -> State
    ensures { result ≡ to_state (fresh_unit wall rate frame) }
{
    let start = Cursors {
        read: Samples(0),
        write: Samples(0),
    };
    let blank = iir::new_from_coefficients(0.0, 0.0, 0.0, 0.0, 0.0);
    State {
        rate,
        frame,
        lines: [start; LINES],
        passes: [start; PASS_RINGS],
        count: Frames(0),
        filters: [blank; FILTERS],
        busy: false,
        tail: false,
        marks: [false; JOBS],
        next: Frames(0),
        before: [blank; FILTERS],
    }
}

// What a call of the unit gives back: its answer, the verdict on the tail, and the state.
// Kept (1): a refused call gives the state back too, `closing::close` another one than it was given (R2.30).
#[derive(Clone, Copy)]
pub struct Outcome {
    pub answer: Answer,
    pub verdict: AudioEffectState,
    pub state: State,
}

// What several frames at once give back: the outcome of a call, and how many frames were done.
// Kept (1): where one is refused the frames before it are done, and the state is theirs (R10.5).
#[derive(Clone, Copy)]
pub struct FramesOutcome {
    pub outcome: Outcome,
    pub done: Frames,
}

// The outcome of a call that leaves no tail to wait for (R2.35).
pub fn quiet(answer: Answer, state: State) -> Outcome
    ensures { result ≡ outcome answer (of_state state) TailComplete }
{
    Outcome {
        answer,
        verdict: AudioEffectState::TailComplete,
        state,
    }
}
