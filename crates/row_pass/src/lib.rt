// A log gone through once for a row of sessions, a batch of events at a time.
#![tactic(auto)]

ghost use Rattle.std.specs.Prelude.{◌≡◌, List, ◌≤◌, length};
ghost use Rattle.event.specs.declared.Event.{Event};
ghost use Rattle.event.specs.Limits.{events as event_limit};
ghost use Rattle.rules.specs.State.{StateOf};
ghost use Rattle.event_log.specs.Whole.{accepted, read_log};
ghost use Rattle.session_row.specs.Row.{most};
ghost use Rattle.row_pass.specs.Passing.{filled_of, FilledFrom, EndsAs, PassedBy};

use event::refusal::Refused;
use event::{Event, Operation};
use row_batch::{BATCH, Batch};
use session::Session;
use session_row::PLACES;

// Why a file is not read to its end: it is too long, which of a log is for those to say that don't go through it; or it is refused.
#[derive(Clone, Copy)]
pub enum FileFault {
    TooLong,
    Refused(Refused),
}

// Where the reading of some events stopped: at the next place, with as many read as a batch holds; at the end of the log; or at a command that is refused.
type Stop = Result<Option<usize>, Refused>;

// Some events of a log, and where the reading stopped.
#[derive(Clone, Copy)]
struct Filled {
    batch: Batch,
    stop: Stop,
}

// A log gone through: how it ended, and the sessions afterwards.
#[derive(Clone, Copy)]
pub struct Passed {
    pub end: Result<(), FileFault>,
    pub sessions: [Session; PLACES],
}

// Goes through a log once, and hands its events to the first n sessions, a batch at a time: a session is copied for its turn, so that turns are to be few.
pub fn pass(sessions: [Session; PLACES], n: usize, log: &[u8]) -> Passed
    requires { n ≤ most }
    ensures end { EndsAs log.now result.end }
    ensures sessions { (es : List Event) → read_log log.now ≡ accepted es → PassedBy n sessions es result.sessions }
{
    let mut held = sessions;
    let mut state = rules::fresh();
    let mut taken: usize = 0;
    let mut at: usize = 0;
    loop {
        let filled = fill(log, at, taken, &mut state);
        let batch = filled.batch;
        held = row_batch::hand_batch(held, n, batch).sessions;
        let next = match filled.stop {
            Ok(Some(next)) => next,
            Ok(None) => {
                return Passed {
                    end: Ok(()),
                    sessions: held,
                };
            }
            Err(refused) => {
                return Passed {
                    end: Err(FileFault::Refused(refused)),
                    sessions: held,
                };
            }
        };
        taken += batch.size;
        at = next;
    }
}

// Reads the events of a log from a place on, so many taken before it, until a batch is full; the state of the rules goes along.
fn fill(log: &[u8], from: usize, before: usize, state: &mut [u8; rules::STATE]) -> Filled
    requires { before ≤ event_limit }
    ensures { (past : List Event) → StateOf past state.old → before ≡ length past → FilledFrom log.now from past result state.new }
{
    let none = Event {
        thread: 0,
        operation: Operation::Mark { mark: 0 },
    };
    let mut events = [none; BATCH];
    let mut at = from;
    for k in 0..BATCH {
        let (event, next) = match event_log::step(log, at, state, before + k) {
            Ok(Some(read)) => read,
            Ok(None) => return stopped(events, k, Ok(None)),
            Err(refused) => return stopped(events, k, Err(refused)),
        };
        events[k] = event;
        at = next;
    }
    stopped(events, BATCH, Ok(Some(at)))
}

// The events read so far, and what the reading stopped at.
fn stopped(events: [Event; BATCH], size: usize, stop: Stop) -> Filled
    ensures { result ≡ filled_of events size stop }
{
    Filled {
        batch: Batch { events, size },
        stop,
    }
}
