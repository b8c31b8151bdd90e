// Rows of 0, 1, 16 and 17 sessions: what a call answers where none, the first, a middle, the last or several refuse, and whether each session is then what it
// would be alone. The same for a batch of events.
#![tactic(auto)]

use event::{Event, Operation};
use row_batch::{BATCH, Batch};
use session::Session;
use session_row::{PLACES, RowHanded, RowRefusal};

// More events than this no session takes.
const MANY: usize = 65535;

// How often a lock may be acquired by its holder.
const DEEP: usize = 255;

fn main() {
    let rows = opened();
    one_event(
        b"no session, thread past the last",
        rows,
        0,
        mark(event::THREADS),
    );
    one_event(b"one session", rows, 1, mark(0));
    one_event(
        b"one session, thread past the last",
        rows,
        1,
        mark(event::THREADS),
    );
    one_event(b"sixteen", rows, 16, mark(0));
    one_event(
        b"sixteen, thread past the last",
        rows,
        16,
        mark(event::THREADS),
    );
    one_event(b"seventeen", rows, 17, mark(0));
    one_event(
        b"seventeen, thread past the last",
        rows,
        17,
        mark(event::THREADS),
    );
    disagreeing(rows);
    full(rows);
    batches(rows);
}

// Some sessions have taken events that the others have not.
fn disagreeing(rows: [Session; PLACES]) {
    let first = ahead(rows, 0, acquire(0), 1);
    one_event(b"lock held in the first", first, 16, acquire(1));
    let middle = ahead(rows, 8, acquire(0), 1);
    one_event(b"lock held in a middle one", middle, 16, acquire(1));
    let last = ahead(rows, 15, acquire(0), 1);
    one_event(b"lock held in the last", last, 16, acquire(1));
    one_event(b"lock held in the one past the row", last, 15, acquire(1));
    let two = ahead(middle, 15, acquire(0), 1);
    one_event(b"lock held in two", two, 16, acquire(1));
    let deep = ahead(middle, 3, acquire(1), DEEP);
    one_event(b"held 255 deep in an earlier one", deep, 16, acquire(1));
    one_event(b"released in one alone", two, 16, release(0));
}

// One session has as many events as it takes.
fn full(rows: [Session; PLACES]) {
    let second = ahead(rows, 1, mark(0), MANY);
    one_event(b"one session full", second, 16, mark(0));
    let short = ahead(rows, 1, mark(0), MANY - 1);
    one_event(b"one session nearly full", short, 16, mark(0));
}

fn batches(rows: [Session; PLACES]) {
    let middle = ahead(rows, 8, acquire(0), 1);
    some_events(b"no events", middle, 16, batch(acquire(1), 0));
    some_events(
        b"thread 1 acquires 64 times",
        middle,
        16,
        batch(acquire(1), BATCH),
    );
    some_events(
        b"a batch of more than it holds",
        middle,
        16,
        batch(acquire(1), 100),
    );
    some_events(b"a batch for seventeen", middle, 17, batch(acquire(1), 2));
}

fn mark(thread: u8) -> Event {
    Event {
        thread,
        operation: Operation::Mark { mark: 0 },
    }
}

fn acquire(thread: u8) -> Event {
    Event {
        thread,
        operation: Operation::Acquire { lock: 0 },
    }
}

fn release(thread: u8) -> Event {
    Event {
        thread,
        operation: Operation::Release { lock: 0 },
    }
}

// The same event as often as is said.
fn batch(e: Event, size: usize) -> Batch {
    Batch {
        events: [e; BATCH],
        size,
    }
}

// Sessions on four patterns, one of them refused.
fn opened() -> [Session; PLACES] {
    let acquired = Session::open(b"\x03\x01\x00\x00").session;
    let marked = Session::open(b"\x07\x00\x00\x00\x00").session;
    let refused = Session::open(b"\x00").session;
    let two = Session::open(b"\x03\x00\x00\x03\x01\x00\x00").session;
    let mut rows = [acquired; PLACES];
    rows[1] = marked;
    rows[3] = two;
    rows[8] = refused;
    rows[15] = two;
    rows
}

// The sessions, that of one place having taken an event so many times.
fn ahead(rows: [Session; PLACES], place: usize, e: Event, times: usize) -> [Session; PLACES] {
    if PLACES <= place {
        return rows;
    }
    let mut held = rows;
    held[place] = taken(rows[place], e, times);
    held
}

fn taken(s: Session, e: Event, times: usize) -> Session {
    let mut held = s;
    for _ in 0..times {
        held = held.take(e).session;
    }
    held
}

// Hands one event to the first n sessions, and shows what is answered.
fn one_event(title: &[u8], rows: [Session; PLACES], n: usize, e: Event) {
    some_events(title, rows, n, batch(e, 1));
    if PLACES < n {
        return;
    }
    let handed = session_row::hand_first(rows, n, e);
    console::text(b"  by itself: ");
    show(rows, n, batch(e, 1), handed);
}

// Hands the events of a batch to the first n sessions, and shows what is answered.
fn some_events(title: &[u8], rows: [Session; PLACES], n: usize, b: Batch) {
    if PLACES < n {
        return;
    }
    let handed = row_batch::hand_batch(rows, n, b);
    console::text(title);
    console::text(b": ");
    show(rows, n, b, handed);
}

fn show(rows: [Session; PLACES], n: usize, b: Batch, handed: RowHanded) {
    show_answer(handed.answer);
    if all_as_alone(rows, n, b, handed.sessions) {
        console::text(b"; each as alone\n");
        return;
    }
    console::text(b"; NOT AS ALONE\n");
}

fn show_answer(answer: Result<(), RowRefusal>) {
    match answer {
        Ok(()) => console::text(b"taken"),
        Err(RowRefusal::Refused(refused)) => {
            console::numbered(b"refused by ", refused.count as u64);
            console::numbered(b", place ", refused.place as u64);
            console::numbered(b", number ", refused.reason.number() as u64);
        }
        Err(RowRefusal::TooLong) => console::text(b"too long"),
    }
}

// Whether each of the first n is what the events make of it alone, in a row that is not too long, and each other one is as it was.
fn all_as_alone(rows: [Session; PLACES], n: usize, b: Batch, after: [Session; PLACES]) -> bool {
    (0..PLACES).all(|k| same(alone(rows[k], k, n, b), after[k]))
}

fn alone(s: Session, k: usize, n: usize, b: Batch) -> Session {
    if n <= k {
        return s;
    }
    if session_row::MOST < n {
        return s;
    }
    each_taken(s, b)
}

fn each_taken(s: Session, b: Batch) -> Session {
    let mut held = s;
    for e in b.events.iter().take(b.size) {
        held = held.take(*e).session;
    }
    held
}

// Whether two sessions on the same pattern have kept the same.
fn same(a: Session, b: Session) -> bool {
    a.taken == b.taken
        && a.count == b.count
        && a.state == b.state
        && a.clocks == b.clocks
        && a.table == b.table
}
