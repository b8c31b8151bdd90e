// Events handed to the rules one by one: the refusal, and the state unchanged by it.
use event::Event;

// The state of no events.
pub(crate) fn renew(state: &mut [u8; rules::STATE]) {
    *state = rules::fresh();
}

// Hands over the event so many times, and says nothing.
pub(crate) fn repeat(state: &mut [u8; rules::STATE], e: Event, times: usize) {
    for n in 0..times {
        let _ = rules::admit(state, n, e);
    }
}

// Hands over one event, the number of events taken before it given.
pub(crate) fn admit(state: &mut [u8; rules::STATE], taken: usize, e: Event) {
    let before = *state;
    let Err(reason) = rules::admit(state, taken, e) else {
        console::text(b": taken\n");
        return;
    };
    console::numbered(b": refused ", u64::from(reason.number()));
    if before == *state {
        console::text(b", state unchanged\n");
    } else {
        console::text(b", STATE CHANGED\n");
    }
}
