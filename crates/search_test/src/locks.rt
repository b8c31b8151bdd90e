// Locks taken again by their holder, told by counting acquires and releases.
use plain::{Leading, MOST};

// Whether some event acquires a lock that is held; where the log is accepted, by the same thread.
pub(crate) fn taken_again(l: Leading) -> bool {
    let events = &l.events[..l.count.min(MOST)];
    for (i, &a) in events.iter().enumerate() {
        if acquires_held(&events[..i], a) {
            return true;
        }
    }
    false
}

// Whether an event acquires a lock that has more acquires than releases before it.
fn acquires_held(before: &[u32], a: u32) -> bool {
    let lock = plain::object(a);
    plain::kind(a) == plain::ACQUIRE
        && how_many(before, plain::RELEASE, lock) < how_many(before, plain::ACQUIRE, lock)
}

// How many of the events are of the kind and have the object.
fn how_many(events: &[u32], kind: u32, object: u32) -> usize {
    events
        .iter()
        .filter(|a| plain::kind(**a) == kind && plain::object(**a) == object)
        .count()
}
