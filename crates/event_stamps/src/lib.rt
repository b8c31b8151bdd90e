// The stamps of given events of a log, by one pass over it.
#![tactic(auto)]

ghost use Rattle.std.specs.Prelude.{◌≡◌, List, ℕ, ◌≤◌, length};
ghost use Rattle.event.specs.declared.Event.{Event};
ghost use Rattle.passes.specs.Passes.{Leads};
ghost use Rattle.event_stamps.specs.EventStamps.{with_stamp, StampsTo};

use clock::Stamp;

// The stamps of those of the first n events that have these numbers, in one pass.
pub fn stamps_of(log: &[u8], n: usize, numbers: [u16; event::SLOTS]) -> [Stamp; event::SLOTS]
    ensures { (es : List Event) (m : ℕ) → Leads log.now es m → n ≤ length es → StampsTo es numbers n result }
{
    let mut stamps = [clock::NO_STAMP; event::SLOTS];
    let mut clocks = clock::fresh();
    let mut at: usize = 0;
    for i in 0..n {
        let Ok(Some((event, next))) = command::read_event(log, at) else {
            return stamps;
        };
        let stamp = clock::advance(&mut clocks, event);
        keep(&mut stamps, numbers, i + 1, stamp);
        at = next;
    }
    stamps
}

// Keeps the stamp of event number i for each slot that has this number.
#[tactic(auto, unfolding(event::specs::Updated::updated))]
fn keep(stamps: &mut [Stamp; event::SLOTS], numbers: [u16; event::SLOTS], i: usize, stamp: Stamp)
    ensures { stamps.new ≡ with_stamp i stamp numbers stamps.old }
{
    for j in 0..event::SLOTS {
        if numbers[j] as usize == i {
            stamps[j] = stamp;
        }
    }
}
