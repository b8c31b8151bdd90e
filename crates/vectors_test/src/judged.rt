// What order queries, runs, sessions, replays and the calls for orders say.
use crate::commands;
use event::Event;
use event::refusal::Refused;
use order_query::QueryRefusal;
use order_rows::PLACES;
use orders_log::{Given, OrdersRefusal};
use relation::Relation;
use run::RunRefusal;
use session::{Session, Verdict};

// How one event of the log stands to another.
pub(crate) fn order(log: &[u8], first: usize, second: usize) {
    match order_query::query(log, first, second) {
        Ok(relation) => show_relation(relation),
        Err(QueryRefusal::Log(refused)) => console::refused(refused),
        Err(QueryRefusal::Query(refused)) => {
            console::text(b"query ");
            console::refused(refused);
        }
    }
}

fn show_relation(relation: Relation) {
    match relation {
        Relation::Same => console::text(b"same"),
        Relation::Before => console::text(b"before"),
        Relation::After => console::text(b"after"),
        Relation::Free => console::text(b"free"),
    }
}

// The first order of the log, or the one after a given one.
// Kept: a line of stdin says which.
pub(crate) fn given(first: bool, log: &[u8], order: &[u8]) {
    if first {
        show_given(orders_log::first(log));
        return;
    }
    show_given(orders_log::next(log, order));
}

// What was given, and the row, which without an order is all 0.
fn show_given(given: Given) {
    let mut row = [0u8; PLACES];
    match given {
        Ok(Some(order)) => {
            console::text(b"order");
            row = order;
        }
        Ok(None) => console::text(b"last"),
        Err(OrdersRefusal::Log(refused)) => console::refused(refused),
        Err(OrdersRefusal::Orders(refused)) => {
            console::text(b"orders ");
            console::refused(refused);
        }
    }
    console::text(b",");
    console::bytes(&row);
}

// What a run says, and what a session says once it has been handed the events before the first that can not be read.
pub(crate) fn both(log: &[u8], pattern: &[u8]) {
    console::text(b"\n  run: ");
    run(log, pattern);
    console::text(b"\n  session: ");
    let opened = Session::open(pattern);
    let s = handed(opened.session, log);
    show_verdict(s.verdict());
}

pub(crate) fn run(log: &[u8], pattern: &[u8]) {
    show_judged(run::run(pattern, log));
}

// Writes the replay into the first `room` of 32 bytes EE, and shows all of them.
// Kept: a length of 0 is shown after a refusal too.
pub(crate) fn replay(log: &[u8], pattern: &[u8], room: usize) {
    if 32 < room {
        return;
    }
    let mut buffer = [0xEEu8; 32];
    let replayed = replay_log::write(pattern, log, &mut buffer[..room]);
    show_judged(replayed.map(|r| r.verdict));
    let length = replayed.map_or(0, |r| r.length);
    console::numbered(b", length ", length as u64);
    commands::show_buffer(&buffer);
}

// What a run says; after a refusal no events are named.
fn show_judged(judged: Result<Verdict, RunRefusal>) {
    match judged {
        Ok(verdict) => show_verdict(verdict),
        Err(RunRefusal::Pattern(refused)) => {
            console::pattern_refused(refused);
            show_numbers([0; event::SLOTS]);
        }
        Err(RunRefusal::Log(refused)) => {
            console::refused(refused);
            show_numbers([0; event::SLOTS]);
        }
    }
}

// Hands an event to a session so many times and once more, and shows the last answer and the verdict.
pub(crate) fn more(e: Event, pattern: &[u8], count: usize) {
    let opened = Session::open(pattern);
    let s = repeated(opened.session, e, count);
    let h = s.take(e);
    show_answer(h.answer);
    console::text(b"\nthen: ");
    show_verdict(h.session.verdict());
}

fn handed(from: Session, log: &[u8]) -> Session {
    let mut s = from;
    let mut at: usize = 0;
    while let Ok(Some((event, next))) = command::decode(log, at, true) {
        let h = s.take(event);
        show_answer(h.answer);
        console::text(b", ");
        s = h.session;
        at = next;
    }
    s
}

// The session after `count` times the event.
fn repeated(from: Session, e: Event, count: usize) -> Session {
    let mut s = from;
    for _ in 0..count {
        s = s.take(e).session;
    }
    s
}

// The event number of each slot, a space before it.
fn show_numbers(numbers: [u16; event::SLOTS]) {
    console::text(b", events");
    for n in numbers {
        console::numbered(b" ", u64::from(n));
    }
}

fn show_verdict(v: Verdict) {
    match v.found {
        Some(count) => console::numbered(b"match at ", count as u64),
        None => console::text(b"no match"),
    }
    show_numbers(v.numbers);
}

fn show_answer(answer: Result<(), Refused>) {
    match answer {
        Ok(()) => console::text(b"taken"),
        Err(refused) => console::refused(refused),
    }
}
