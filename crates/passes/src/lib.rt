// Passes over the leading events of a log: the clocks that follow each event, the last places of events by their keys, and what a pass from the start finds.
#![tactic(auto)]

ghost use Rattle.std.specs.Prelude.{◌≡◌, List, [], ℕ, ◌≤◌, IfSome, replicate};
ghost use Rattle.event.specs.declared.Event.{Event};
ghost use Rattle.event.specs.Limits.{slots as slot_limit};
ghost use Rattle.event.specs.Slots.{fits};
ghost use Rattle.trace.proofs.FirstScan.{exceeds};
ghost use Rattle.clock.specs.Clocks.{stamp_by};
ghost use Rattle.clock.specs.Arrivals.{ClocksOf};
ghost use Rattle.passes.specs.LastPlaces.{noted, followed_on};
ghost use Rattle.passes.specs.Passes.{Leads, FirstAbove, Stamped};

use clock::Stamp;
use event::{Event, Slot};

// The slots of a pattern that are looked for, their keys, and how many slots there are.
// Kept: fixed memory; a key beside each slot, and not in it, so that the keys go by as one row.
#[derive(Clone, Copy)]
pub struct Sought {
    pub slots: [Slot; event::SLOTS],
    pub keys: [u16; event::SLOTS],
    pub size: usize,
}

// What is kept of the events that the clocks took: the clocks, and for each slot the place of the last event that has its key.
#[derive(Clone, Copy)]
pub struct Followed {
    pub clocks: [u16; clock::CLOCKS],
    pub last: [u16; event::SLOTS],
}

impl Followed {
    // What is kept of no events.
    pub fn fresh() -> Followed
        ensures clocks { ClocksOf [] result.clocks }
        ensures last { result.last ≡ replicate slot_limit 0 }
    {
        Followed {
            clocks: clock::fresh(),
            last: [0; event::SLOTS],
        }
    }

    // The clocks take an event, and its place is kept as the last one for each slot that has its key: the event's stamp.
    pub fn follow(&mut self, keys: [u16; event::SLOTS], key: u16, e: Event) -> Stamp
        ensures stamp { result ≡ stamp_by self.old.clocks e }
        ensures after { self.new ≡ followed_on keys key e self.old }
    {
        let stamp = clock::advance(&mut self.clocks, e);
        let place = clock::count_of(e.thread, stamp);
        note(&mut self.last, keys, key, place);
        stamp
    }

    // A pass from the start of a log to its event number n: the clocks take each event, the last places are kept. The stamp of that event.
    // Kept: `first_above`, `event_stamps` and `last_fit` read on by the same lines; as closures their steps, some of which end the pass, would be longer
    // than these.
    pub fn pass(&mut self, log: &[u8], n: usize, keys: [u16; event::SLOTS]) -> Stamp
        ensures { (es : List Event) (m : ℕ) → Leads log.now es m → Stamped es keys n self.old result self.new }
    {
        let mut stamp = clock::NO_STAMP;
        let mut at: usize = 0;
        for i in 0..n {
            let Ok(Some((event, next))) = command::read_event(log, at) else {
                return stamp;
            };
            let key = slots::key_of(event::slot_of(event));
            stamp = self.follow(keys, key, event);
            at = next;
        }
        stamp
    }
}

// Keeps the place of an event as the last one for each slot that has its key, which every slot that it fits has.
#[tactic(auto, unfolding(event::specs::Updated::updated))]
fn note(last: &mut [u16; event::SLOTS], keys: [u16; event::SLOTS], key: u16, place: u16)
    ensures { last.new ≡ noted key place keys last.old }
{
    // Kept: two rows go by one index, and of what `iter_mut` with `zip` writes a proof knows nothing.
    for j in 0..event::SLOTS {
        last[j] = if keys[j] == key { place } else { last[j] };
    }
}

// The number of the first of n events of a log that fits the slot and has a place in its thread above `barred`.
pub fn first_above(log: &[u8], n: usize, slot: Slot, barred: u16) -> Option<usize>
    ensures within { IfSome result (λ e. e ≤ n) }
    ensures first { (es : List Event) → Leads log.now es n → FirstAbove es slot barred result }
{
    let mut place: u16 = 0;
    let mut at: usize = 0;
    for i in 0..n {
        let Ok(Some((event, next))) = command::read_event(log, at) else {
            return None;
        };
        place = clock::next_count(place, event.thread == slot.thread);
        if above(slot, event, place, barred) {
            return Some(i + 1);
        }
        at = next;
    }
    None
}

fn above(slot: Slot, e: Event, place: u16, barred: u16) -> bool
    ensures { result ≡ exceeds (fits slot e) place barred }
{
    event::fit(slot, e) && barred < place
}
