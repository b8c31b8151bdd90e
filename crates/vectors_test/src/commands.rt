// One command: read at a place, written at a place of a buffer of bytes EE; whether an event fits a slot.
use command::Reading;
use event::refusal::Refused;
use event::{Event, Operation, Slot, SlotOperation};

// The command that bytes begin with, its numbers not held to their limits; mark 0 of thread 0 where they have none.
// Kept: the lines have a command there, and an Option would have each answer ask again.
pub(crate) fn of(bytes: &[u8], tall: bool) -> Event {
    match command::decode(bytes, 0, tall) {
        Ok(Some((event, _))) => event,
        _ => Event {
            thread: 0,
            operation: Operation::Mark { mark: 0 },
        },
    }
}

pub(crate) fn show_slot(s: Slot) {
    console::numbered(b"thread ", s.thread as u64);
    show_operation(s.operation);
}

fn show_operation(op: SlotOperation) {
    match op {
        SlotOperation::Read { variable } => console::numbered(b" read ", variable as u64),
        SlotOperation::Write { variable } => console::numbered(b" write ", variable as u64),
        SlotOperation::Acquire { lock } => console::numbered(b" acquire ", lock as u64),
        SlotOperation::Release { lock } => console::numbered(b" release ", lock as u64),
        SlotOperation::Fork { child } => console::numbered(b" fork ", child as u64),
        SlotOperation::Join { child } => console::numbered(b" join ", child as u64),
        SlotOperation::Mark { mark } => console::numbered(b" mark ", mark as u64),
    }
}

fn show_event(e: Event) {
    show_slot(event::slot_of(e));
    if let Operation::Write { height, .. } = e.operation {
        console::text(b" height ");
        show_height(height);
    }
}

// Millimetres, a minus sign before those below zero.
fn show_height(mm: i32) {
    if mm < 0 {
        console::text(b"-");
    }
    console::number(u64::from(mm.unsigned_abs()));
}

// Shows what stands at a place, and answers the place after it.
// Kept: a line of stdin says which of the two it is, here and in `write_either`.
fn show_at(bytes: &[u8], place: usize, tall: bool) -> Option<usize> {
    if tall {
        let read = command::read_event(bytes, place);
        return show_read(read, show_event, console::refused);
    }
    let read = command::read_slot(bytes, place);
    show_read(read, show_slot, console::pattern_refused)
}

fn show_read<T, S, R>(read: Reading<T>, show: S, refuse: R) -> Option<usize>
where
    T: Copy,
    S: Fn(T),
    R: Fn(Refused),
    requires shows { S.IsAlwaysCallable show }
    requires refuses { R.IsAlwaysCallable refuse }
{
    match read {
        Ok(Some((shown, next))) => {
            show(shown);
            return Some(next);
        }
        Ok(None) => console::text(b"end"),
        Err(refused) => refuse(refused),
    }
    None
}

pub(crate) fn at(bytes: &[u8], place: usize, tall: bool) {
    if let Some(next) = show_at(bytes, place, tall) {
        console::numbered(b", next ", next as u64);
    }
}

// Writes the event, or the slot that it fits.
fn write_either(buffer: &mut [u8], at: usize, e: Event, tall: bool) -> Result<usize, Refused> {
    if tall {
        return writer::write_event(buffer, at, e);
    }
    writer::write_slot(buffer, at, event::slot_of(e))
}

// Writes into the first `room` of ten bytes, and shows all ten.
pub(crate) fn write(e: Event, tall: bool, at: usize, room: usize) {
    if 10 < room {
        return;
    }
    let mut buffer = [0xEEu8; 10];
    let w = write_either(&mut buffer[..room], at, e, tall);
    show_written(w);
    show_buffer(&buffer);
}

pub(crate) fn end(at: usize, room: usize) {
    if 10 < room {
        return;
    }
    let mut buffer = [0xEEu8; 10];
    let w = writer::write_end(&mut buffer[..room], at);
    show_written(w);
    show_buffer(&buffer);
}

fn show_written(w: Result<usize, Refused>) {
    match w {
        Ok(at) => console::numbered(b"next ", at as u64),
        Err(refused) => console::refused(refused),
    }
}

// At most 32 bytes, which were EE.
pub(crate) fn show_buffer(buffer: &[u8]) {
    let fresh = [0xEEu8; 32];
    console::text(b", buffer");
    if console::starts_with(&fresh, buffer.len(), buffer) {
        console::text(b" unchanged");
        return;
    }
    console::bytes(buffer);
}

// Writes a command behind one byte, shows the buffer, and reads the command back there.
pub(crate) fn back(e: Event, tall: bool) {
    let mut buffer = [0xEEu8; 9];
    let to = write_either(&mut buffer, 1, e, tall).ok();
    console::bytes(&buffer);
    console::text(b": ");
    if show_at(&buffer, 1, tall) == to {
        console::text(b", next place agrees");
    } else {
        console::text(b", OTHER NEXT PLACE");
    }
}

// Whether the event fits the slot that `like` fits.
pub(crate) fn fit(e: Event, like: Event) {
    if event::fit(event::slot_of(like), e) {
        console::text(b"fits");
        return;
    }
    console::text(b"does not fit");
}
