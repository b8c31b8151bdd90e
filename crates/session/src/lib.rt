// Sessions that take events one by one: whether some order of the events taken holds the pattern.
#![tactic(auto)]

ghost use Rattle.std.specs.Prelude.{◌≡◌, Bool, cond, List, [], ◌∷◌, reverse, ℕ, ◌+◌, eqb, Ok};
ghost use Rattle.event.specs.declared.Event.{Event};
ghost use Rattle.event.specs.declared.Slot.{Slot};
ghost use Rattle.event.specs.Limits.{threads as thread_limit, slots as slot_limit, events as event_limit};
ghost use Rattle.event.specs.Refusals.{number_given};
ghost use Rattle.event.specs.Slots.{NoneFitted};
ghost use Rattle.rules.specs.Accepted.{refusal_after};
ghost use Rattle.rules.specs.State.{refusal_by, state_after};
ghost use Rattle.event_log.specs.Whole.{blank, pattern_of};
ghost use Rattle.session.specs.Answers.{refusal, answer_is, verdict_is};
ghost use Rattle.session.specs.Model.{fresh_on, kept_after, handed, found_at, verdict_of};
ghost use Rattle.session.specs.Meaning.{OpenedOn, Describes, VerdictOf, taken_by};

use event::refusal::{Refusal, Refused};
use event::{Event, Slot, SlotOperation};
use event_log::Pattern;

// The pattern, what is kept of the events taken, how many they are, and the count of the match, 0 without one.
// Kept: a number and not an Option, as C lends it.
#[derive(Clone, Copy)]
pub struct Session {
    pub pattern: Pattern,
    pub state: [u8; rules::STATE],
    pub clocks: [u16; clock::CLOCKS],
    pub table: [u16; table::TABLE],
    pub taken: u16,
    pub count: u16,
}

// The session, beside what became of the pattern, which has so many slots: a refused one leaves a session on the lone slot thread 0, mark 0.
#[derive(Clone, Copy)]
pub struct Opened {
    pub answer: Result<usize, Refused>,
    pub session: Session,
}

#[derive(Clone, Copy)]
pub struct Handed {
    pub answer: Result<(), Refused>,
    pub session: Session,
}

// The count of a match, and the event number of each slot; 0 beyond the pattern and without a match.
#[derive(Clone, Copy)]
pub struct Verdict {
    pub found: Option<usize>,
    pub numbers: [u16; Session::SLOTS],
}

impl Session {
    pub const THREADS: u8 = event::THREADS;

    pub const SLOTS: usize = event::SLOTS;

    pub const EVENTS: usize = event::EVENTS;

    // How many threads there are, how many slots a pattern may have, and how many events a session takes.
    pub fn threads() -> u8
        ensures { result ≡ thread_limit }
    {
        Self::THREADS
    }

    pub fn slots() -> usize
        ensures { result ≡ slot_limit }
    {
        Self::SLOTS
    }

    pub fn events() -> usize
        ensures { result ≡ event_limit }
    {
        Self::EVENTS
    }

    // Opens a session on a pattern.
    pub fn open(pattern: &[u8]) -> Opened
        ensures { OpenedOn pattern.now result }
    {
        let read = event_log::read_pattern(pattern);
        let answer = read.map(|p| p.size);
        let session = fresh(read.unwrap_or(lone()));
        Opened { answer, session }
    }

    // Hands over one event. A refused one leaves the session as it was.
    pub fn take(self, e: Event) -> Handed
        ensures exact { result ≡ handed self e }
        ensures history { (ss : List Slot) (es : List Event) → Describes ss es self → (answer_is result.answer ≡ refusal (refusal_after (reverse es) e) 0) × Describes ss (taken_by es e) result.session }
    {
        let mut session = self;
        let slots = session.pattern.slots;
        let fit = slots::fitting(slots, e);
        let acting = slots::threads_of(slots);
        let size = session.pattern.size;
        let given = hand(
            &mut session.state,
            &mut session.clocks,
            &mut session.table,
            &mut session.taken,
            &mut session.count,
            acting,
            fit,
            size,
            e,
        );
        let answer = given.map_err(|reason| reason.at(0));
        Handed { answer, session }
    }

    // What the session has found in the events taken so far.
    pub fn verdict(self) -> Verdict
        ensures exact { result ≡ verdict_of self }
        ensures history { (ss : List Slot) (es : List Event) → Describes ss es self → VerdictOf ss es (verdict_is result) }
    {
        let numbers = table::numbers(&self.table, self.pattern.size);
        let found = found_at(self.count);
        Verdict { found, numbers }
    }
}

// Hands one event to a session whose parts are lent. A refused one leaves them as they were.
// Of the pattern it takes the thread of each slot, which slots the event fits, and how many slots there are.
// Kept: the parts are five parameters, as the C interface lends them by separate pointers; and what is taken of the pattern is three, as a caller in C has of it
// numbers alone, from which each is made.
pub fn hand(
    state: &mut [u8; rules::STATE],
    clocks: &mut [u16; clock::CLOCKS],
    table: &mut [u16; table::TABLE],
    taken: &mut u16,
    count: &mut u16,
    acting: [u8; Session::SLOTS],
    fit: [bool; Session::SLOTS],
    size: usize,
    e: Event,
) -> Result<(), Refusal>
    ensures number { number_given result ≡ refusal_by state.old taken.old e }
    ensures after { record { state = state.exit.now; clocks = clocks.new; table = table.new; taken = taken.new; count = count.new } ≡ kept_after acting fit size (record { state = state.entry.now; clocks = clocks.old; table = table.old; taken = taken.old; count = count.old }) e }
{
    if slots::none_fitted(fit, size) {
        return skip(state, clocks, table, taken, count, size, e);
    }
    let searched = admit_one(state, taken, *count, e)?;
    if !searched {
        return Ok(());
    }
    let n = *taken;
    let stamp = clock::advance(clocks, e);
    table::offer(table, acting, fit, size, e.thread, stamp, n);
    *count = table::count_at(table, size, n);
    Ok(())
}

// Hands over one event that fits none of the slots. The table of partial matches is not written; but until there is a match the clocks go on, since later
// events hear of this one. The answer and what is kept are those of `hand`, whatever the slots are.
pub fn skip(
    state: &mut [u8; rules::STATE],
    clocks: &mut [u16; clock::CLOCKS],
    table: &[u16; table::TABLE],
    taken: &mut u16,
    count: &mut u16,
    size: usize,
    e: Event,
) -> Result<(), Refusal>
    ensures number { number_given result ≡ refusal_by state.old taken.old e }
    ensures after { (acting : List ℕ) (fit : List Bool) → NoneFitted size fit → record { state = state.exit.now; clocks = clocks.new; table = table.now; taken = taken.new; count = count.new } ≡ kept_after acting fit size (record { state = state.entry.now; clocks = clocks.old; table = table.now; taken = taken.old; count = count.old }) e }
{
    let searched = admit_one(state, taken, *count, e)?;
    if !searched {
        return Ok(());
    }
    clock::advance(clocks, e);
    *count = table::count_at(table, size, *taken);
    Ok(())
}

// Hands one event to the rules, and where it is taken there is one event more: whether it is searched for a match, as there is none yet.
fn admit_one(
    state: &mut [u8; rules::STATE],
    taken: &mut u16,
    count: u16,
    e: Event,
) -> Result<bool, Refusal>
    ensures number { number_given result ≡ refusal_by state.old taken.old e }
    ensures searched { (searched : Bool) → result ≡ Ok searched → searched ≡ eqb count 0 }
    ensures state { state.new ≡ state_after state.old taken.old e }
    ensures taken { taken.new ≡ cond (eqb (number_given result) 0) (taken.old + 1) taken.old }
{
    rules::admit(state, *taken as usize, e)?;
    *taken += 1;
    Ok(count == 0)
}

fn found_at(count: u16) -> Option<usize>
    ensures { result ≡ found_at count }
{
    if count == 0 {
        return None;
    }
    Some(count as usize)
}

// The lone slot that a session looks for where its pattern is refused.
fn lone() -> Pattern
    ensures { result ≡ pattern_of (blank ∷ []) }
{
    let slots = [Slot {
        thread: 0,
        operation: SlotOperation::Mark { mark: 0 },
    }; Session::SLOTS];
    Pattern { slots, size: 1 }
}

// The session on a pattern, with no event taken.
fn fresh(p: Pattern) -> Session
    ensures { result ≡ fresh_on p }
{
    let state = rules::fresh();
    let clocks = clock::fresh();
    let table = table::fresh();
    Session {
        pattern: p,
        state,
        clocks,
        table,
        taken: 0,
        count: 0,
    }
}
