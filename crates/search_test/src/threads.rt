// The threads that a log names: those that act, and the children of its forks and joins.
use plain::Leading;

// Whether the thread acts in one of the events.
pub(crate) fn acts(l: Leading, thread: u32) -> bool {
    l.events
        .iter()
        .take(l.count)
        .any(|a| plain::thread(*a) == thread)
}

// Whether the thread is the child of one.
pub(crate) fn is_child(l: Leading, thread: u32) -> bool {
    l.events
        .iter()
        .take(l.count)
        .any(|a| names_child(*a) && plain::object(*a) == thread)
}

fn names_child(a: u32) -> bool {
    let kind = plain::kind(a);
    kind == plain::FORK || kind == plain::JOIN
}
