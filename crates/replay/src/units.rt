// Units from fresh on: their calls, and what they keep in the end.
use crate::kept::kept;
use crate::tape::{Kind, Record, Stop, Tape};
use audio_buffer::AudioEffectState;
use bands::Times;
use std::io::Read;
use unit::{ALLPASS_FLOATS, COEFFICIENTS, DELAYS_AND_RINGS, LINES, Outcome, ROWS, State};

// The longest frame.
const LONGEST: usize = 1024;

// A unit on its way, and what its calls are lent.
#[derive(Drop)]
struct Going<'a> {
    state: State,
    cs: [f32; COEFFICIENTS],
    input: &'a mut [f32],
    store: &'a mut [f32],
    work: &'a mut [f32],
    output: &'a mut [f32],
}

// A unit from fresh to what it keeps, on memory of the lengths of its record's frame.
pub(crate) fn unit<R: Read + Drop>(tape: &mut Tape<R>, record: Record) -> Result<(), Stop> {
    let [rate, frame, count, _, _] = record.numbers;
    let len = match frame {
        4 | 12 | 128 => frame as usize,
        _ => LONGEST,
    };
    let mut store = [0.0f32; DELAYS_AND_RINGS + LINES * LONGEST];
    let store = &mut store[..DELAYS_AND_RINGS + LINES * len];
    let fresh = reverb::fresh(rate, frame as usize, store);
    same_answer(tape, fresh, count)?;
    let mut going = Going {
        state: fresh.state,
        cs: [0.0f32; COEFFICIENTS],
        input: &mut [0.0f32; LONGEST][..len],
        store,
        work: &mut [0.5f32; ROWS * LONGEST + ALLPASS_FLOATS][..ROWS * len + ALLPASS_FLOATS],
        output: &mut [0.5f32; LONGEST][..len],
    };
    going.play(tape)
}

// Compares the answer and the count of a call.
fn same_answer<R: Read + Drop>(tape: &mut Tape<R>, a: Outcome, count: u32) -> Result<(), Stop> {
    let answer = u64::from(samples::number(a.answer));
    tape.count.same("answer", 0, answer, 0)?;
    let ours = u64::from(a.state.count.0.cast_unsigned());
    tape.count.same("count", 0, ours, count)
}

impl Going<'_> {
    // The calls one after another, to the record of what is kept.
    fn play<R: Read + Drop>(&mut self, tape: &mut Tape<R>) -> Result<(), Stop> {
        for _ in 0..u64::MAX {
            let record = tape.next()?;
            if record.kind == Kind::Kept {
                return kept(tape, self.state, self.store);
            }
            self.given(tape, record.kind)?;
            let a = self.call(record);
            self.state = a.state;
            self.answered(tape, record, a)?;
        }
        Ok(())
    }

    // Reads what a call is given: an apply its input, and where they are new its coefficients.
    fn given<R: Read + Drop>(&mut self, tape: &mut Tape<R>, kind: Kind) -> Result<(), Stop> {
        match kind {
            Kind::ApplyNew => {
                tape.fill(&mut self.cs)?;
                tape.fill(self.input)
            }
            Kind::Apply => tape.fill(self.input),
            _ => Ok(()),
        }
    }

    // The call of a record. One of another kind is an apply that is given what the last was.
    fn call(&mut self, record: Record) -> Outcome {
        match record.kind {
            Kind::Tail => reverb::tail(self.state, self.store, self.work, self.output),
            Kind::Reset => reverb::reset(self.state, self.store),
            _ => {
                let [_, _, low, mid, high] = record.numbers.map(wire::sample);
                let times = Times { low, mid, high };
                let input = &mut *self.input;
                reverb::apply(
                    self.state,
                    times,
                    &self.cs,
                    input,
                    self.store,
                    self.work,
                    self.output,
                )
            }
        }
    }

    // Compares what a call answered: a reset has neither verdict nor output.
    fn answered<R: Read + Drop>(
        &self,
        tape: &mut Tape<R>,
        record: Record,
        a: Outcome,
    ) -> Result<(), Stop> {
        let [count, verdict, _, _, _] = record.numbers;
        same_answer(tape, a, count)?;
        if record.kind == Kind::Reset {
            return Ok(());
        }
        let remaining = u64::from(a.verdict == AudioEffectState::TailRemaining);
        tape.count.same("verdict", 0, remaining, verdict)?;
        tape.same_row("output", 0, self.output)
    }
}
