// One frame done as jobs in three orders, with requests among them that are refused, beside the whole
// call on the same unit.
#![tactic(auto)]

ghost use Rattle.std.specs.Iterator.{IsFinite};

use bands::Times;
use iir::Filter;
use jobs::{job_line, job_mix, job_output, job_read};
use shell::{FRAME, STORE, WORK};
use std::io;
use unit::{FILTERS, LINES, Outcome, PER_FILTER, State};

// A request was answered wrongly.
#[derive(Clone, Copy)]
struct Wrong;

// A job of a frame.
#[derive(Clone, Copy)]
enum Job {
    Read(usize),
    Mix,
    Line(usize),
    Output,
}

impl Job {
    // Asks a unit for the job.
    fn ask(self, s: State, store: &[f32], work: &mut [f32]) -> Outcome {
        match self {
            Job::Read(line) => job_read(s, line, store, work),
            Job::Mix => job_mix(s, work),
            Job::Line(line) => job_line(s, line, work),
            Job::Output => job_output(s, work),
        }
    }
}

// A unit on the way, with its memory and the row of its output.
#[derive(Drop)]
struct Going {
    state: State,
    store: [f32; STORE],
    work: [f32; WORK],
    output: [f32; FRAME],
}

impl Going {
    // A unit that has sounded for five frames, so that all of its rings hold something.
    fn begin() -> Going {
        let mut store = [0.0f32; STORE];
        let state = shell::start(&mut store).state;
        let mut going = Going {
            state,
            store,
            work: [0.5f32; WORK],
            output: [0.0f32; FRAME],
        };
        for _ in 0..5u32 {
            going.apply(1.0);
        }
        going
    }

    // The whole call, on a ramp.
    fn apply(&mut self, start: f32) {
        let a = reverb::apply(
            self.state,
            times(),
            coefficients().as_flattened(),
            &ramp(start),
            &mut self.store,
            &mut self.work,
            &mut self.output,
        );
        self.state = a.state;
    }

    // Takes over the state that a request leaves, and compares the number of its answer with the one due.
    fn answered(&mut self, a: Outcome, due: u32) -> Result<(), Wrong> {
        self.state = a.state;
        if samples::number(a.answer) == due {
            Ok(())
        } else {
            Err(Wrong)
        }
    }

    // Opens the frame.
    fn open(&mut self) -> Result<(), Wrong> {
        let a = opening::open_apply(
            self.state,
            times(),
            coefficients().as_flattened(),
            &ramp(0.5),
            &self.store,
            &mut self.work,
        );
        self.answered(a, 0)
    }

    // Closes it.
    fn close(&mut self) -> Result<(), Wrong> {
        let (store, work) = (&mut self.store, &mut self.work);
        let a = closing::close(self.state, store, work, &mut self.output);
        self.answered(a, 0)
    }

    // A job on the unit's own memory.
    fn ask(&mut self, job: Job, due: u32) -> Result<(), Wrong> {
        let a = job.ask(self.state, &self.store, &mut self.work);
        self.answered(a, due)
    }

    // A line that the unit hasn't: a read, and then a line's job.
    fn no_such_line(&mut self) -> Result<(), Wrong> {
        self.ask(Job::Read(LINES), 4)?;
        self.ask(Job::Line(LINES), 4)
    }

    // Whole calls while a frame is open.
    fn whole_calls(&mut self) -> Result<(), Wrong> {
        let (store, work) = (&mut self.store, &mut self.work);
        let a = reverb::tail(self.state, store, work, &mut self.output);
        self.answered(a, 5)?;
        let b = reverb::reset(self.state, &mut self.store);
        self.answered(b, 5)
    }

    // A job on a work memory of the wrong length.
    fn wrong_length(&mut self, job: Job) -> Result<(), Wrong> {
        let a = job.ask(self.state, &self.store, &mut self.output);
        self.answered(a, 3)
    }

    // A job, asked for again when it is done, with requests before it that no open frame takes.
    fn step(&mut self, job: Job) -> Result<(), Wrong> {
        self.no_such_line()?;
        self.whole_calls()?;
        self.wrong_length(job)?;
        self.ask(job, 0)?;
        self.ask(job, 5)
    }

    // Jobs one after another.
    fn steps<I: Iterator<Item = Job> + Drop>(&mut self, jobs: I) -> Result<(), Wrong>
        requires can { I.can_next jobs }
        requires ends { IsFinite (I.remaining jobs) }
    {
        for job in jobs {
            self.step(job)?;
        }
        Ok(())
    }

    // Reads, the mix, the lines, the output.
    fn in_order(&mut self) -> Result<(), Wrong> {
        let reads = (0..LINES).map(Job::Read);
        let lines = (0..LINES).map(Job::Line);
        self.steps(reads.chain([Job::Mix]).chain(lines).chain([Job::Output]))
    }

    // The lines from the last to the first, and the output before the mix.
    fn backwards(&mut self) -> Result<(), Wrong> {
        let reads = (0..LINES).rev().map(Job::Read);
        let lines = (0..LINES).rev().map(Job::Line);
        self.steps(reads.chain([Job::Output, Job::Mix]).chain(lines))
    }

    // The lines by steps of seven and of five, and the output among them.
    fn across(&mut self) -> Result<(), Wrong> {
        let reads = (0..LINES).map(|k| Job::Read((k * 7 + 3) % LINES));
        let some = (0..LINES / 2).map(|k| Job::Line(k * 5 % LINES));
        let rest = (LINES / 2..LINES).map(|k| Job::Line(k * 5 % LINES));
        self.steps(
            reads
                .chain([Job::Mix])
                .chain(some)
                .chain([Job::Output])
                .chain(rest),
        )
    }

    // The frame as jobs in an order.
    fn frame<F: FnOnce(&mut Going) -> Result<(), Wrong>>(&mut self, order: F) -> Result<(), Wrong>
        requires { F.IsAlwaysCallable order }
    {
        self.open()?;
        order(self)?;
        self.close()
    }

    // Whether it is another unit with no frame open, bit for bit: the counts, the filters, the store and
    // the output.
    fn is_same(&self, other: &Going) -> bool {
        self.state.count.0 == other.state.count.0
            && same_filters(&self.state.filters, &other.state.filters)
            && same(&self.store, &other.store)
            && same(&self.output, &other.output)
    }
}

// Filters that ring: a part of what went out comes back, each a bit more than the one before.
fn coefficients() -> [[f32; PER_FILTER]; FILTERS] {
    let mut cs = [[0.0f32; PER_FILTER]; FILTERS];
    let mut gain = 0.25f32;
    for five in cs.iter_mut() {
        *five = [0.125, 0.0, gain, 0.0, 0.0];
        gain += 0.0078125;
    }
    cs
}

// An input whose samples all differ.
fn ramp(start: f32) -> [f32; FRAME] {
    let mut row = [0.0f32; FRAME];
    let mut x = start;
    for sample in row.iter_mut() {
        *sample = x;
        x = 0.03125 - x * 0.9375;
    }
    row
}

// The times of every apply.
fn times() -> Times {
    Times {
        low: 0.1,
        mid: 0.2,
        high: 0.1,
    }
}

// Whether two rows are the same, bit for bit.
fn same<const N: usize>(xs: &[f32; N], ys: &[f32; N]) -> bool {
    xs.iter()
        .zip(ys)
        .all(|(x, y)| wire::bits(*x) == wire::bits(*y))
}

// The numbers of a filter.
fn numbers(f: &Filter) -> [f32; 9] {
    [f.a1, f.a2, f.b0, f.b1, f.b2, f.x1, f.x2, f.y1, f.y2]
}

// Whether all filters of two units are the same.
fn same_filters(fs: &[Filter; FILTERS], gs: &[Filter; FILTERS]) -> bool {
    fs.iter()
        .zip(gs)
        .all(|(f, g)| same(&numbers(f), &numbers(g)))
}

// Writes how a frame in an order goes, beside the whole call.
fn compare<F: FnOnce(&mut Going) -> Result<(), Wrong>>(
    rt: &impl Print,
    number: u32,
    order: F,
    whole: &Going,
) -> io::Result<()>
    requires { F.IsAlwaysCallable order }
{
    let mut going = Going::begin();
    match going.frame(order) {
        Err(Wrong) => println!(rt; "order {number}: a request was answered wrongly"),
        Ok(()) if going.is_same(whole) => println!(rt;
            "order {number}: the whole call, bit for bit"
        ),
        Ok(()) => println!(rt; "order {number}: not the whole call"),
    }
}

fn main(rt: HostRuntime) -> io::Result<()> {
    let mut whole = Going::begin();
    whole.apply(0.5);
    compare(&rt, 0, Going::in_order, &whole)?;
    compare(&rt, 1, Going::backwards, &whole)?;
    compare(&rt, 2, Going::across, &whole)
}
