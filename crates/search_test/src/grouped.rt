// The bytes of a replay by the words of document 02, Note 1, with the chains of the log's events computed plainly.
use swap_search::lists;
use swap_search::truth::Truth;

pub const SPACE: usize = 64;

// The log's commands group by group, "each group keeps its recorded order", the closing 00, and AA as before.
pub(crate) fn bytes(log: &[u8], t: Truth, numbers: [u16; 5]) -> [u8; SPACE] {
    let mut buffer = [0xAAu8; SPACE];
    let mut at: usize = 0;
    for group in 0..6 {
        for i in 0..8 {
            at = next(log, t, numbers, group, i, &mut buffer, at);
        }
    }
    if let Some(end) = buffer.get_mut(at) {
        *end = 0;
    }
    buffer
}

// Puts the command that follows the first i, where its event is of the group; the place after it.
fn next(
    log: &[u8],
    t: Truth,
    numbers: [u16; 5],
    group: usize,
    i: u16,
    buffer: &mut [u8; SPACE],
    at: usize,
) -> usize {
    let number = i.saturating_add(1);
    if group_of(t, numbers, number) != group {
        return at;
    }
    let Some(command) = log.get(place_of(log, i)..place_of(log, number)) else {
        return at;
    };
    drawn::place_after(writer::put(buffer, at, command), at)
}

// "First come all events that come before or are slot 1's event, then those not yet written that do so for slot 2's, and so on, then the rest". A slot that is not
// there has the number 0, and so takes the rest.
fn group_of(t: Truth, numbers: [u16; 5], event: u16) -> usize {
    numbers
        .iter()
        .position(|slot| lists::comes_before(t, event, *slot))
        .unwrap_or(5)
}

// The place after the first n commands, or after all.
fn place_of(log: &[u8], n: u16) -> usize {
    let mut at: usize = 0;
    for _ in 0..n {
        at = after(log, at);
    }
    at
}

fn after(log: &[u8], at: usize) -> usize {
    match command::read_event(log, at) {
        Ok(Some((_, next))) => next,
        _ => at,
    }
}
