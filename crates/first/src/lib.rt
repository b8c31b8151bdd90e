// The first example: the slots of a pattern are filled one after another by the events of a log, each by the first event that can fill it.
#![tactic(auto)]

ghost use Rattle.std.specs.Prelude.{◌≡◌, true, false, List, ℕ, ◌≤◌, ◌<◌};
ghost use Rattle.event.specs.declared.Event.{Event};
ghost use Rattle.event.specs.Limits.{slots as slot_limit, events};
ghost use Rattle.first.specs.Search.{none_found, filled, looking_on};
ghost use Rattle.passes.specs.Passes.{Leads, SlotsOf, LastsOf, Stamped};
ghost use Rattle.first.specs.Holding.{NextIs, Underway, Settled, Following, Newest};

use clock::Stamp;
use passes::{Followed, Sought};

// The key of no slot: it names a thread that no event has.
// Kept: a key and not an Option of one, so that one comparison tells that a slot is looked for and that the event has its key.
const NO_KEY: u16 = 255;

// How many slots have found their event, these events' numbers, and their stamps joined, so far as slots are left. The key of the slot
// looked for, that of no slot where none is; and whether the clocks run: from the first slot found to the last but one.
#[derive(Clone, Copy)]
pub struct Search {
    pub found: usize,
    pub want: u16,
    pub running: bool,
    pub numbers: [u16; event::SLOTS],
    pub stamps: Stamp,
}

// Nothing is found yet.
pub fn none_found(sought: &Sought) -> Search
    ensures { result ≡ none_found sought.now.keys }
{
    Search {
        found: 0,
        want: sought.keys[0],
        running: false,
        numbers: [0; event::SLOTS],
        stamps: clock::NO_STAMP,
    }
}

// The newest event of a log, number n, fills the slot looked for. Then each slot after it, so far as an event already read fills it.
pub fn choose(
    log: &[u8],
    sought: &Sought,
    s: Search,
    n: usize,
    followed: &mut Followed,
    stamp: Stamp,
) -> Search
    requires { (s.found < sought.now.size) × ((sought.now.size ≤ slot_limit) × (n ≤ events)) }
    ensures within { result.found ≤ sought.now.size }
    ensures settled { (es : List Event) → Leads log.now es n → SlotsOf sought.now → NextIs es sought.now s n → Newest es sought.now s followed.old n stamp → Settled es sought.now.slots sought.now.size result × Following es sought.now result followed.new }
{
    let full = fill(s, n);
    if full.found == sought.size {
        return full;
    }
    // The clocks gave the stamp of the newest event, or, where it fills the first slot, they take all events up to it.
    let own = if s.found == 0 {
        followed.pass(log, n, sought.keys)
    } else {
        stamp
    };
    let next = look_on(sought, full, own);
    settle(log, sought, next, &followed.last, n)
}

// Returns to the start of the log for each slot that an event already read may fill: none does where the place of the last that has its key is
// not above what the stamps count.
fn settle(log: &[u8], sought: &Sought, from: Search, last: &[u16; event::SLOTS], n: usize) -> Search
    requires { (from.found < sought.now.size) × ((sought.now.size ≤ slot_limit) × (n ≤ events)) }
    ensures within { (from.found ≤ result.found) × (result.found ≤ sought.now.size) }
    ensures settled { (es : List Event) → Leads log.now es n → SlotsOf sought.now → Underway es sought.now.slots sought.now.size from → LastsOf es sought.now last.now → Settled es sought.now.slots sought.now.size result }
{
    let mut s = from;
    loop {
        let slot = sought.slots[s.found];
        let barred = clock::count_of(slot.thread, s.stamps);
        if last[s.found] <= barred {
            return s;
        }
        let Some(e) = passes::first_above(log, n, slot, barred) else {
            return s;
        };
        s = fill(s, e);
        if s.found == sought.size {
            return s;
        }
        let stamp = Followed::fresh().pass(log, e, sought.keys);
        s = look_on(sought, s, stamp);
    }
}

// The slot looked for has found event number n, and none is looked for.
fn fill(s: Search, n: usize) -> Search
    requires { (s.found < slot_limit) × (n ≤ events) }
    ensures { result ≡ filled s n }
{
    let mut numbers = s.numbers;
    numbers[s.found] = n as u16;
    Search {
        found: s.found + 1,
        want: NO_KEY,
        running: false,
        numbers,
        ..s
    }
}

// The stamp of the event found is joined with the others, and the next slot is looked for.
fn look_on(sought: &Sought, s: Search, stamp: Stamp) -> Search
    requires { (s.found < slot_limit) × (0 < s.found) }
    ensures { result ≡ looking_on sought.now.keys sought.now.size s stamp }
{
    Search {
        want: sought.keys[s.found],
        running: s.found + 1 < sought.size,
        stamps: clock::join(s.stamps, stamp),
        ..s
    }
}
