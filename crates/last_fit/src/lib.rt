// The last event of a log that fits a slot, and its place in its thread, by one pass over the log.
#![tactic(auto)]

ghost use Rattle.std.specs.Prelude.{List};
ghost use Rattle.event.specs.declared.Event.{Event};
ghost use Rattle.passes.specs.Passes.{Leads};
ghost use Rattle.last_fit.specs.LastFit.{LastFit};

use event::Slot;

// The number of an event, and its place among the events of its thread.
#[derive(Clone, Copy)]
pub struct PlacedEvent {
    pub number: usize,
    pub place: u16,
}

// The last of the n events of a log that fits the slot.
pub fn last_fit(log: &[u8], n: usize, slot: Slot) -> Option<PlacedEvent>
    ensures { (es : List Event) → Leads log.now es n → LastFit es slot result }
{
    let mut last = None;
    let mut place: u16 = 0;
    let mut at: usize = 0;
    for i in 0..n {
        let Ok(Some((event, next))) = command::read_event(log, at) else {
            return last;
        };
        place = clock::next_count(place, event.thread == slot.thread);
        if event::fit(slot, event) {
            last = Some(PlacedEvent {
                number: i + 1,
                place,
            });
        }
        at = next;
    }
    last
}
