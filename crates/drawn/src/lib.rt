// Small logs drawn by number.
// Used by test programs only.
#![tactic(auto)]

ghost use Rattle.std.specs.Prelude.{◌≡◌, ◌≤◌, length};
ghost use Rattle.drawn.specs.Drawing.{is_accepted, place_after};

use event::{Event, Operation};

// A log under way: the place after it, and the last number drawn.
#[derive(Clone, Copy)]
pub struct Draft {
    pub at: usize,
    pub drawn: u32,
}

const LAST_THREAD: u8 = event::THREADS - 1;

const LAST_VARIABLE: u8 = event::VARIABLES - 1;

const LAST_LOCK: u8 = event::LOCKS - 1;

// What a log has many of: reads; acquires and releases; forks and joins, each with marks; or marks, reads and writes of one object, so that events repeat.
#[derive(Clone, Copy, PartialEq, Eq)]
enum Mix {
    Even,
    Reads,
    Locks,
    Threads,
    Repeats,
}

// An operation before its object is drawn. Writes at two heights, as these play no part in order or pattern.
#[derive(Clone, Copy)]
enum Kind {
    Read,
    High,
    Low,
    Acquire,
    Release,
    Fork,
    Join,
    Mark,
}

// How a log is drawn: how often an event is drawn anew, whether numbers are the highest, among how many threads, and its mix.
#[derive(Clone, Copy)]
struct Manner {
    tries: u32,
    high: bool,
    threads: u8,
    mix: Mix,
}

// Writes a log of at most seven events; the place after it, and the last number drawn.
pub fn make(buffer: &mut [u8], drawn: u32) -> Draft
    ensures { result.at ≤ length buffer.new }
{
    let shape = generator::step(drawn);
    let manner = Manner {
        tries: 1 + shape / 2097152 % 8,
        high: shape / 1048576 % 2 == 1,
        threads: if shape / 524288 % 2 == 1 { 2 } else { 4 },
        mix: Mix::Even,
    };
    let d = events(buffer, shape, 1 + shape / 16777216 % 7, manner);
    closed(buffer, d)
}

// The same with four to seven events of one mix: 1 has many reads, 2 many acquires and releases, 3 many forks and joins, 4 repeats events.
// Kept: any number will do, and an enum would ask more of who calls this.
pub fn make_mixed(buffer: &mut [u8], drawn: u32, mix: u8) -> Draft
    ensures { result.at ≤ length buffer.new }
{
    let shape = generator::step(drawn);
    let mix = mix_of(mix);
    let manner = Manner {
        tries: 8,
        high: shape / 1048576 % 2 == 1,
        threads: thread_count(mix, shape / 524288 % 2 == 1),
        mix,
    };
    let d = events(buffer, shape, 4 + shape / 16777216 % 4, manner);
    closed(buffer, d)
}

fn mix_of(number: u8) -> Mix {
    match number {
        1 => Mix::Reads,
        2 => Mix::Locks,
        3 => Mix::Threads,
        4 => Mix::Repeats,
        _ => Mix::Even,
    }
}

// Few threads for locks, so that holders come to release, and where events are to repeat.
fn thread_count(mix: Mix, more: bool) -> u8 {
    match (mix, more) {
        (Mix::Locks | Mix::Repeats, false) => 2,
        (Mix::Locks | Mix::Repeats, true) => 4,
        (_, false) => 4,
        (_, true) => event::THREADS,
    }
}

// Closes a log; the place after it is within the buffer.
fn closed(buffer: &mut [u8], d: Draft) -> Draft
    ensures { result.at ≤ length buffer.new }
{
    let end = close(buffer, d.at, d.drawn / 32768 % 32);
    Draft {
        at: end.min(buffer.len()),
        drawn: d.drawn,
    }
}

fn events(buffer: &mut [u8], drawn: u32, count: u32, manner: Manner) -> Draft {
    let mut d = Draft { at: 0, drawn };
    for _ in 0..count {
        d = one_event(buffer, d, manner);
    }
    d
}

// Draws an event until the log takes it, so many times at most.
fn one_event(buffer: &mut [u8], d: Draft, manner: Manner) -> Draft {
    let mut end = d.at;
    let mut drawn = d.drawn;
    for _ in 0..manner.tries {
        drawn = generator::step(drawn);
        end = place_after(
            writer::write_event(buffer, d.at, drawn_event(drawn, manner)),
            d.at,
        );
        if takes(buffer, end) {
            break;
        }
    }
    Draft { at: end, drawn }
}

// Whether what stands before `end`, closed, is an accepted log.
fn takes(buffer: &mut [u8], end: usize) -> bool {
    let Ok(size) = writer::write_end(buffer, end) else {
        return false;
    };
    buffer
        .get(..size)
        .is_some_and(|log| accepted(event_log::read_log(log)))
}

// Whether a log is accepted.
pub fn accepted<E: Copy>(read: Result<usize, E>) -> bool
    ensures { result ≡ is_accepted read }
{
    read.is_ok()
}

// Closes the log by 00; in four ways of 32 not at all, by 08, by 00 00, or by 00 08.
fn close(buffer: &mut [u8], at: usize, way: u32) -> usize {
    if 60 < at {
        return at;
    }
    set_byte(buffer, at, if way == 1 { 8 } else { 0 });
    set_byte(buffer, at + 1, if way == 3 { 8 } else { 0 });
    match way {
        0 => at,
        2..=3 => at + 2,
        _ => at + 1,
    }
}

fn set_byte(buffer: &mut [u8], at: usize, b: u8) {
    if let Some(place) = buffer.get_mut(at) {
        *place = b;
    }
}

// One of the last numbers below a limit, or one of the first.
fn near(n: u8, last: u8, high: bool) -> u8 {
    if high && n <= last {
        return last - n;
    }
    n
}

// An event over two variables, two locks, four marks, and four children or all.
fn drawn_event(drawn: u32, manner: Manner) -> Event {
    let high = manner.high;
    let object = drawn_object(drawn, manner.mix);
    let thread = near(drawn_thread(drawn, manner.threads), LAST_THREAD, high);
    let child = near(
        drawn_child(drawn, object, manner.threads),
        LAST_THREAD,
        high,
    );
    let kind = drawn_kind(drawn / 16777216 % 16, manner.mix);
    let operation = drawn_operation(kind, object, child, high);
    Event { thread, operation }
}

// One of four objects; the first where events repeat.
fn drawn_object(drawn: u32, mix: Mix) -> u8 {
    if mix == Mix::Repeats {
        return 0;
    }
    (drawn / 1048576 % 4) as u8
}

// One of two threads, of four or of all.
fn drawn_thread(drawn: u32, threads: u8) -> u8 {
    match threads {
        2 => (drawn / 4194304 % 2) as u8,
        4 => (drawn / 4194304 % 4) as u8,
        _ => (drawn / 268435456 % event::THREADS as u32) as u8,
    }
}

// By the object; one of all where all act.
fn drawn_child(drawn: u32, object: u8, threads: u8) -> u8 {
    if threads < event::THREADS {
        return object;
    }
    (drawn / 65536 % event::THREADS as u32) as u8
}

// By one of 16 numbers drawn.
fn drawn_kind(number: u32, mix: Mix) -> Kind {
    match mix {
        Mix::Even => even(number),
        Mix::Reads => reads(number),
        Mix::Locks => locks(number),
        Mix::Threads => threads(number),
        Mix::Repeats => repeats(number),
    }
}

fn even(number: u32) -> Kind {
    match number {
        0..=1 => Kind::Read,
        2 => Kind::High,
        3..=4 => Kind::Low,
        5..=6 => Kind::Acquire,
        7..=10 => Kind::Release,
        11..=12 => Kind::Fork,
        13..=14 => Kind::Join,
        _ => Kind::Mark,
    }
}

fn reads(number: u32) -> Kind {
    match number {
        0..=3 => Kind::Read,
        4 => Kind::High,
        5..=6 => Kind::Low,
        7 => Kind::Acquire,
        8..=9 => Kind::Release,
        10 => Kind::Fork,
        11 => Kind::Join,
        _ => Kind::Mark,
    }
}

fn locks(number: u32) -> Kind {
    match number {
        0..=3 => Kind::Acquire,
        4..=10 => Kind::Release,
        11 => Kind::Read,
        12 => Kind::High,
        _ => Kind::Mark,
    }
}

fn threads(number: u32) -> Kind {
    match number {
        0..=4 => Kind::Fork,
        5..=8 => Kind::Join,
        9 => Kind::Read,
        10 => Kind::High,
        _ => Kind::Mark,
    }
}

fn repeats(number: u32) -> Kind {
    match number {
        0..=5 => Kind::Read,
        6 => Kind::High,
        7 => Kind::Low,
        _ => Kind::Mark,
    }
}

fn drawn_operation(kind: Kind, object: u8, child: u8, high: bool) -> Operation {
    let variable = near(object % 2, LAST_VARIABLE, high);
    let lock = near(object / 3, LAST_LOCK, high);
    match kind {
        Kind::Read => Operation::Read { variable },
        Kind::High => Operation::Write {
            variable,
            height: i32::MAX,
        },
        Kind::Low => Operation::Write {
            variable,
            height: -400,
        },
        Kind::Acquire => Operation::Acquire { lock },
        Kind::Release => Operation::Release { lock },
        Kind::Fork => Operation::Fork { child },
        Kind::Join => Operation::Join { child },
        Kind::Mark => Operation::Mark {
            mark: object as u16,
        },
    }
}

// The next write place; the old one after a refusal.
pub fn place_after<E: Copy>(w: Result<usize, E>, at: usize) -> usize
    ensures { result ≡ place_after w at }
{
    w.unwrap_or(at)
}
