// Many marks at a place of a buffer.
use event::{Event, Operation};

// Kept: the place after a refusal is one at which each write is refused, so that the loop goes on to say so.
// Writes `count` times mark 0 of thread 0 from `at` on, and answers the place after them; after a refusal no place of any buffer.
pub(crate) fn put_marks(space: &mut [u8], at: usize, count: usize) -> usize {
    let mark = Event {
        thread: 0,
        operation: Operation::Mark { mark: 0 },
    };
    let mut place = at;
    for _ in 0..count {
        place = writer::write_event(space, place, mark).unwrap_or(usize::MAX);
    }
    place
}
