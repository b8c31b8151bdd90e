// Patterns of one to five slots drawn by number, most slots being those of the log's own events.
use event::{Slot, SlotOperation};
use plain::Leading;

// The slots in numbers, `size` of them, and the last number drawn.
// Kept: fixed memory; the slots of a pattern drawn, and how many they are.
#[derive(Clone, Copy)]
pub struct Sketch {
    pub slots: [u32; 5],
    pub size: usize,
    pub drawn: u32,
}

// Draws slots in the order of their events, and then exchanges two of them up to three times.
pub fn draw(l: Leading, from: u32) -> Sketch {
    let shape = generator::step(from);
    let rising = in_sequence(l, shape);
    let times = (shape / 1048576 % 4) as usize;
    mixed(rising, times)
}

fn in_sequence(l: Leading, shape: u32) -> Sketch {
    let mut slots = [strange(0); 5];
    let mut place = (shape / 4194304 % 2) as usize;
    let mut drawn = shape;
    for slot in slots.iter_mut() {
        drawn = generator::step(drawn);
        *slot = slot_from(l, place, drawn);
        place = next(place, drawn);
    }
    Sketch {
        slots,
        size: size_of(l.count, shape),
        drawn,
    }
}

// One to five; in one case of four also where the log has fewer events.
fn size_of(count: usize, shape: u32) -> usize {
    let size = 1 + (shape / 16777216 % 5) as usize;
    if count < size && 1 <= count && shape / 524288 % 4 != 0 {
        return count;
    }
    size
}

// The place of the event for the next slot: sometimes the same again.
fn next(place: usize, drawn: u32) -> usize {
    match drawn / 268435456 {
        0 => place,
        1..=12 => (place % 8 + 1) % 8,
        _ => (place % 8 + 2) % 8,
    }
}

// The slot of an event; at times one of another operation, or a mark that no log here has.
fn slot_from(l: Leading, place: usize, drawn: u32) -> u32 {
    let event = place.checked_rem(l.count).and_then(|i| l.events.get(i));
    let Some(&e) = event else {
        return strange(0);
    };
    match drawn / 1048576 % 32 {
        0 => strange((plain::thread(e) % 256) as u8),
        1 => turned(e),
        _ => e,
    }
}

fn strange(thread: u8) -> u32 {
    plain::number(plain::MARK, thread, 65535)
}

// The same with the other operation on its variable, lock or child.
fn turned(a: u32) -> u32 {
    match plain::kind(a) {
        plain::READ | plain::ACQUIRE | plain::FORK => a % 268435456 + 16777216,
        plain::WRITE | plain::RELEASE | plain::JOIN => a - 16777216,
        _ => a,
    }
}

fn mixed(k: Sketch, times: usize) -> Sketch {
    let mut m = k;
    for _ in 0..times {
        m = exchanged(m);
    }
    m
}

// Two slots drawn by number change places.
fn exchanged(k: Sketch) -> Sketch {
    let drawn = generator::step(k.drawn);
    let size = k.size;
    if size < 1 {
        return k;
    }
    let i = (drawn / 16777216) as usize % size;
    let j = (drawn / 65536 % 256) as usize % size;
    let mut slots = k.slots;
    if i < 5 && j < 5 {
        slots.swap(i, j);
    }
    Sketch { slots, size, drawn }
}

// Whether two of the slots are equal.
pub fn repeats(k: Sketch) -> bool {
    let slots = &k.slots[..k.size.min(5)];
    for (j, slot) in slots.iter().enumerate() {
        if slots[..j].contains(slot) {
            return true;
        }
    }
    false
}

// Writes the pattern; the place after it.
pub fn write(buffer: &mut [u8], k: Sketch) -> usize {
    let mut at: usize = 0;
    for slot in k.slots.iter().take(k.size) {
        at = drawn::place_after(writer::write_slot(buffer, at, slot_of(*slot)), at);
    }
    drawn::place_after(writer::write_end(buffer, at), at)
}

fn slot_of(a: u32) -> Slot {
    let operation = operation_of(plain::kind(a), (a % 65536) as u16);
    Slot {
        thread: (plain::thread(a) % 256) as u8,
        operation,
    }
}

fn operation_of(kind: u32, object: u16) -> SlotOperation {
    let low = (object % 256) as u8;
    match kind {
        plain::READ => SlotOperation::Read { variable: low },
        plain::WRITE => SlotOperation::Write { variable: low },
        plain::ACQUIRE => SlotOperation::Acquire { lock: low },
        plain::RELEASE => SlotOperation::Release { lock: low },
        plain::FORK => SlotOperation::Fork { child: low },
        plain::JOIN => SlotOperation::Join { child: low },
        _ => SlotOperation::Mark { mark: object },
    }
}
