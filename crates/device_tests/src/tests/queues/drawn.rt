//! Calls that are drawn, against the plain machine.

use super::calls::{Answer, Call, Recorder, make_call};
use super::plain::{BUFFERS, PlainQueues};
use super::row_holds;
use stand_in_device::m2m_queues::{Queues, RunOne};
use std::test::Fail;
use test_builders::Draws;

/// How many calls are drawn.
const CALLS: u32 = 20_000;
/// For so many calls there are few requests; then, for as many, they are made until there are as
/// many as there may be.
const TURN: u32 = 1000;

/// An index of a buffer, or now and then the one past the last.
fn index(draws: &mut Draws) -> usize {
    let last = if draws.below(8) == 0 {
        BUFFERS
    } else {
        BUFFERS - 1
    };
    draws.below(last as u64 + 1) as usize
}

/// A call. Requests to make, close and look at are those below a bound, those to run the first
/// four.
fn call(draws: &mut Draws, requests: u64) -> Call {
    let any = draws.below(requests) as usize;
    let id = draws.below(4) as usize;
    let index = index(draws);
    match draws.below(40) {
        0 | 1 => Call::Alloc,
        2 if requests < 8 || index == 0 => Call::Close(any),
        2 => Call::Alloc,
        3 | 4 => Call::Reinit(id),
        5..11 => Call::SetControls(id, draws.below(1000) as u32),
        11..17 => {
            let timestamp = 1000 * draws.below(2);
            Call::QueueOutput(index, id, timestamp, draws.below(4) > 0)
        }
        17..25 => Call::QueueRequest(id),
        25 | 26 => Call::QueueCapture(index),
        27..31 => Call::Run,
        31..34 => Call::DequeueOutput,
        34 | 35 => Call::DequeueCapture,
        36 | 37 => Call::LookAtRequest(any),
        38 => Call::LookAtOutput(index),
        _ => Call::LookAtCapture(index),
    }
}

/// Both machines, and how often each answer came.
#[derive(Drop)]
struct Pair {
    queues: Queues<u32>,
    recorder: Recorder,
    plain: PlainQueues,
    ran: u32,
    released: u32,
    faults: [u32; 7],
}

impl Pair {
    /// Makes a call of both, and says whether they answer the same and worked on the same slices.
    fn agrees(&mut self, call: Call, is_full: bool) -> bool {
        self.recorder.is_full = is_full;
        self.plain.is_full = is_full;
        let answer = make_call(&mut self.queues, &mut self.recorder, call);
        let is_right = match call {
            Call::Alloc => self.plain.allocates(answer),
            _ => self.plain.answer(call) == answer,
        };
        self.count(call, answer);
        is_right
            && self.recorder.slices == self.plain.slices
            && self.recorder.last == self.plain.last
    }

    /// Counts an answer, but for those of calls that only look.
    fn count(&mut self, call: Call, answer: Answer) {
        match (call, answer) {
            (Call::LookAtRequest(_) | Call::LookAtOutput(_) | Call::LookAtCapture(_), _) => {}
            (_, Answer::Did(RunOne::Ran)) => self.ran = self.ran.saturating_add(1),
            (_, Answer::Did(RunOne::Released)) => self.released = self.released.saturating_add(1),
            (_, Answer::Refused(fault)) => {
                let number = usize::from(fault.number());
                if number < 7 {
                    self.faults[number] = self.faults[number].saturating_add(1);
                }
            }
            _ => {}
        }
    }

    /// All requests and buffers are in the same states.
    fn is_same(&mut self) -> bool {
        for index in 0..66 {
            if !self.agrees(Call::LookAtRequest(index), false)
                || !self.agrees(Call::LookAtOutput(index), false)
                || !self.agrees(Call::LookAtCapture(index), false)
            {
                return false;
            }
        }
        true
    }

    /// Each answer came often, so that little was left out.
    fn has_seen_all(&self) -> bool {
        for number in 1..7 {
            if self.faults[number] < 20 {
                return false;
            }
        }
        self.ran > 200 && self.released > 10
    }
}

#[test]
fn drawn_calls_are_answered_as_by_a_plain_machine(rt: HostRuntime) -> Result<(), Fail> {
    let mut pair = Pair {
        queues: Queues::new(rt.alloc(), BUFFERS, BUFFERS)?,
        recorder: Recorder::new(),
        plain: PlainQueues::new(),
        ran: 0,
        released: 0,
        faults: [0; 7],
    };
    let mut draws = Draws::new(0x2545_F491_4F6C_DD1D);
    for number in 0..CALLS {
        let requests = if number / TURN % 4 < 3 { 5 } else { 66 };
        let call = call(&mut draws, requests);
        let agrees = pair.agrees(call, draws.below(8) == 0);
        let is_same = number % TURN > 0 || pair.is_same();
        row_holds(&rt, number as usize, agrees && is_same);
    }
    assert!(rt; pair.is_same() && pair.has_seen_all());
    Ok(())
}
