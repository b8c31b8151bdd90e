// A batch of events for each session of a lent row: a session is copied for its turn in a row, so that turns are to be few.
#![tactic(auto)]

ghost use Rattle.std.specs.Prelude.{◌≡◌, ◌≤◌};
ghost use Rattle.event.specs.Refusals.{number_given};
ghost use Rattle.session_row.specs.Row.{places, RowAnswered, FirstHanded};
ghost use Rattle.row_batch.specs.Batch.{events_of, alone_through};

use event::Event;
use event::refusal::Refusal;
use session::Session;
use session_row::{PLACES, RowHanded, RowRefusal};

// How many events a batch holds.
pub const BATCH: usize = 64;

// Events to be handed over one after another: the first `size`, or all where there are fewer.
// Kept: fixed memory. The events of a batch are read into an array, and how many they are stands beside; they are lent as a slice.
#[derive(Clone, Copy)]
pub struct Batch {
    pub events: [Event; BATCH],
    pub size: usize,
}

impl Batch {
    // The events of the batch.
    pub fn as_slice(&self) -> &[Event]
        ensures { result.now ≡ events_of self.now }
    {
        &self.events[..self.size.min(BATCH)]
    }
}

// Hands some events to each session of a row, in row order: all of them to one session before the next has its turn. The answer counts the sessions
// that refused any of them, with the first refusal of the lowest.
pub fn take_batch(row: &mut [Session], events: &[Event]) -> Result<(), RowRefusal>
    ensures { RowAnswered (alone_through events.now) row.old result row.new }
{
    session_row::each_in_turn(row, |s| through(s, events))
}

// Hands some events to one session, and keeps its first refusal. Its fields are lent for each event, since a session is too large to be copied for each.
fn through(s: Session, events: &[Event]) -> (Result<(), Refusal>, Session)
    ensures { (number_given result.0 ≡ (alone_through events.now s).number) × (result.1 ≡ (alone_through events.now s).after) }
{
    let mut session = s;
    let pattern = s.pattern;
    let acting = slots::threads_of(pattern.slots);
    let mut first: Result<(), Refusal> = Ok(());
    for e in events {
        let fit = slots::fitting(pattern.slots, *e);
        let next = session::hand(
            &mut session.state,
            &mut session.clocks,
            &mut session.table,
            &mut session.taken,
            &mut session.count,
            acting,
            fit,
            pattern.size,
            *e,
        );
        first = first.and(next);
    }
    (first, session)
}

// Lends the first n of some sessions held by value as a row, for the events of a batch.
// Kept: a twin of `session_row::hand_first`, which says why.
pub fn hand_batch(sessions: [Session; PLACES], n: usize, b: Batch) -> RowHanded
    requires { n ≤ places }
    ensures { FirstHanded (alone_through (events_of b)) sessions n result }
{
    let mut held = sessions;
    let answer = take_batch(&mut held[..n], b.as_slice());
    RowHanded {
        answer,
        sessions: held,
    }
}
