// Why a log has no match, by plain means: the slots filled one after another, each by the first event that fits it and comes before or is none of those chosen,
// up to a slot for which the last event that fits it can't be taken.
use swap_search::lists;
use swap_search::truth::Truth;

// The slots of a pattern, at most.
const SLOTS: usize = 5;

// The slot, counted from 1; how many are before it; the last event that fits it, and the lowest slot whose event that one comes before or is; the events of the
// slots before, and 0 at the other places.
#[derive(Clone, Copy)]
pub struct Reason {
    pub slot: usize,
    pub before: usize,
    pub last: Option<u16>,
    pub earlier: Option<usize>,
    pub events: [u16; SLOTS],
}

// The first slot that is stopped, and by what.
pub(crate) fn reason_of(t: Truth) -> Option<Reason> {
    let k = (0..SLOTS).find(|&k| stops(t, k, last_fit(t, k)))?;
    let events = chosen(t, k);
    let last = last_fit(t, k);
    Some(Reason {
        slot: k % SLOTS + 1,
        before: k,
        last,
        earlier: lowest(t, before(&events, k), last),
        events,
    })
}

// How many slots are stopped.
pub(crate) fn how_many(t: Truth) -> usize {
    (0..SLOTS).filter(|&k| stops(t, k, last_fit(t, k))).count()
}

// Whether a slot would be stopped if the first event that fits it stood for the last.
pub(crate) fn first_stops(t: Truth) -> bool {
    (0..SLOTS).any(|k| stops(t, k, first_free(t, k, &[])))
}

// Whether the slots before slot k, counted from 0, have their first events, and this one, for slot k, is none or comes before or is one of these.
fn stops(t: Truth, k: usize, event: Option<u16>) -> bool {
    let events = chosen(t, k);
    let earlier = before(&events, k);
    k < t.sketch.size
        && earlier.iter().all(|n| *n != 0)
        && (event.is_none() || lowest(t, earlier, event).is_some())
}

// The events of the slots before slot k.
fn before(events: &[u16; SLOTS], k: usize) -> &[u16] {
    &events[..k.min(SLOTS)]
}

// The first events of the slots before slot k; 0 where there is none.
// Kept: it is compared with the row that a reason has, which has 0 there.
fn chosen(t: Truth, k: usize) -> [u16; SLOTS] {
    let mut events = [0u16; SLOTS];
    for i in 0..k.min(SLOTS) {
        let first = first_free(t, i, &events[..i]);
        events[i] = first.unwrap_or(0);
    }
    events
}

// The first event that fits slot i, and comes before or is none of those that are chosen.
pub(crate) fn first_free(t: Truth, i: usize, chosen: &[u16]) -> Option<u16> {
    (1..9).find(|&n| {
        lists::fills(t, t.leading.count, i, n) && lowest(t, chosen, Some(n)).is_none()
    })
}

// The last event that fits slot i.
fn last_fit(t: Truth, i: usize) -> Option<u16> {
    (1..9)
        .rev()
        .find(|&n| lists::fills(t, t.leading.count, i, n))
}

// The lowest of the slots with these events, counted from 1, whose event this one comes before or is.
fn lowest(t: Truth, chosen: &[u16], event: Option<u16>) -> Option<usize> {
    let event = event?;
    let i = chosen
        .iter()
        .position(|c| lists::comes_before(t, event, *c))?;
    Some(i + 1)
}
