// How the answer of a call is turned into what C is answered.
ghost use Rattle.std.specs.Prelude.{◌≡◌};
ghost use Rattle.hall.specs.Face.{faced, faced_frames, faced_ring, faced_four, faced_value, faced_wave};

use crate::{HallAnswer, HallFourAnswer, HallFramesAnswer, HallRingAnswer, HallValue, HallWave};
use audio_buffer::AudioEffectState;
use delay::{FourAnswer, RingAnswer};
use primes::Value;
use samples::{index, number};
use unit::{FramesOutcome, Outcome};
use wave::{Reading, read_number, read_place, take_of};

// The outcome of a call of the unit, for C.
impl From<Outcome> for HallAnswer {
    ghost from_gives = { λ o r. r ≡ faced o };

    #[tactic(auto, unfolding(crate::specs::Face::faced))]
    fn from(o: Outcome) -> HallAnswer {
        HallAnswer {
            number: number(o.answer),
            index: index(o.answer),
            remaining: o.verdict == AudioEffectState::TailRemaining,
            state: o.state,
        }
    }
}

// The outcome of several frames, for C.
impl From<FramesOutcome> for HallFramesAnswer {
    ghost from_gives = { λ x r. r ≡ faced_frames x };

    #[tactic(auto, unfolding(crate::specs::Face::faced_frames))]
    fn from(x: FramesOutcome) -> HallFramesAnswer {
        let o = x.outcome;
        HallFramesAnswer {
            number: number(o.answer),
            index: index(o.answer),
            done: x.done,
            remaining: o.verdict == AudioEffectState::TailRemaining,
            state: o.state,
        }
    }
}

// The answer of a ring alone, for C.
impl From<RingAnswer> for HallRingAnswer {
    ghost from_gives = { λ a r. r ≡ faced_ring a };

    #[tactic(auto, unfolding(crate::specs::Face::faced_ring))]
    fn from(a: RingAnswer) -> HallRingAnswer {
        HallRingAnswer {
            number: number(a.answer),
            cursors: a.cursors,
        }
    }
}

// The answer of a ring alone with four samples, for C.
impl From<FourAnswer> for HallFourAnswer {
    ghost from_gives = { λ a r. r ≡ faced_four a };

    #[tactic(auto, unfolding(crate::specs::Face::faced_four))]
    fn from(a: FourAnswer) -> HallFourAnswer {
        HallFourAnswer {
            number: number(a.answer),
            cursors: a.cursors,
            x: a.x,
        }
    }
}

// A delay value, for C.
impl From<Value> for HallValue {
    ghost from_gives = { λ v r. r ≡ faced_value v };

    #[tactic(auto, unfolding(crate::specs::Face::faced_value))]
    fn from(v: Value) -> HallValue {
        HallValue {
            number: number(v.answer),
            value: v.value,
        }
    }
}

// What is read of a take, for C.
impl From<Reading> for HallWave {
    ghost from_gives = { λ x r. r ≡ faced_wave x };

    #[tactic(auto, unfolding(crate::specs::Face::faced_wave))]
    fn from(x: Reading) -> HallWave {
        let t = take_of(x);
        HallWave {
            number: read_number(x),
            place: read_place(x),
            rate: t.format.rate,
            channels: t.format.channels,
            tag: t.format.tag,
            first: t.first,
            len: t.len,
        }
    }
}
