// The order of a log of at most eight events, computed from document 01's words: dependent pairs, and chains of them rising in the log.
// Used by test programs only.
#![tactic(auto)]

ghost use Rattle.std.specs.Prelude.{◌≡◌, ◌+◌, ◌*◌, ◌<◌, ◌≤◌};
ghost use Rattle.plain.specs.Numbers.{kind_in, thread_in, object_in, number_of};
ghost use Rattle.plain.specs.Chains.{of_kinds, same_variable_one_write, same_lock, names_thread_of, is_thread_of, dependent, dependent_at, entry, is_at, holds_to, links, reaches_to, column_to, columns_to};

use event::Event;

pub const MOST: usize = 8;

// The kinds of events by the byte of their command.
// Kept: the contracts speak of an event as one number, so that its kind is a number too.
pub const READ: u32 = 1;

pub const WRITE: u32 = 2;

pub const ACQUIRE: u32 = 3;

pub const RELEASE: u32 = 4;

pub const FORK: u32 = 5;

pub const JOIN: u32 = 6;

pub const MARK: u32 = 7;

// The leading events of a log, `count` of them, each as one number.
// Kept: fixed memory, and the contracts speak of eight numbers.
#[derive(Clone, Copy)]
pub struct Leading {
    pub events: [u32; MOST],
    pub count: usize,
}

// An event as one number: its kind, its thread, and its object, which is the variable, the lock, the child or the mark.
// Two events have the same number where they fit the same slot.
pub fn number(kind: u32, thread: u8, object: u16) -> u32
    requires { kind < 8 }
    ensures { result ≡ kind * 16777216 + thread * 65536 + object }
{
    kind * 16777216 + thread as u32 * 65536 + object as u32
}

pub fn kind(a: u32) -> u32
    ensures { result ≡ kind_in a }
{
    a / 16777216
}

pub fn thread(a: u32) -> u32
    ensures { result ≡ thread_in a }
{
    a / 65536 % 256
}

pub fn object(a: u32) -> u32
    ensures { result ≡ object_in a }
{
    a % 65536
}

fn number_of(e: Event) -> u32
    ensures { result ≡ number_of e }
{
    let s = event::slot_of(e);
    let op = s.operation;
    number(event::byte_of(op) as u32, s.thread, event::object_of(op))
}

// The events of a log up to its end, to the first command that is refused, or to the eighth.
pub fn read(log: &[u8]) -> Leading
    ensures { result.count ≤ 8 }
{
    let mut events = [0u32; MOST];
    let mut at: usize = 0;
    for n in 0..MOST {
        let Ok(Some((event, next))) = command::read_event(log, at) else {
            return Leading { events, count: n };
        };
        events[n] = number_of(event);
        at = next;
    }
    Leading {
        events,
        count: MOST,
    }
}

// Whether one of the events is of the kind.
pub fn holds(l: Leading, kind: u32) -> bool
    ensures { result ≡ holds_to 8 l.events l.count kind }
{
    (0..MOST).any(|n| is_at(&l.events, l.count, kind, n))
}

// Whether event n, of `count` of eight events, is of the kind.
#[tactic(auto, unfolding(crate::specs::Chains::is_at))]
fn is_at(events: &[u32; MOST], count: usize, wanted: u32, n: usize) -> bool
    ensures { result ≡ is_at events.now count wanted n }
{
    n < MOST && n < count && kind(events[n]) == wanted
}

// Whether the event is of one of two kinds: reads and writes touch a variable, acquires and releases a lock, forks and joins a thread.
fn of_kinds(a: u32, x: u32, y: u32) -> bool
    ensures { result ≡ of_kinds a x y }
{
    kind(a) == x || kind(a) == y
}

// "they touch the same variable and at least one is a write"
#[tactic(auto, unfolding(crate::specs::Chains::same_variable_one_write))]
fn same_variable_one_write(a: u32, b: u32) -> bool
    ensures { result ≡ same_variable_one_write a b }
{
    let touch = of_kinds(a, READ, WRITE) && of_kinds(b, READ, WRITE);
    let write = kind(a) == WRITE || kind(b) == WRITE;
    object(a) == object(b) && touch && write
}

// "they touch the same lock"
#[tactic(auto, unfolding(crate::specs::Chains::same_lock))]
fn same_lock(a: u32, b: u32) -> bool
    ensures { result ≡ same_lock a b }
{
    object(a) == object(b) && of_kinds(a, ACQUIRE, RELEASE) && of_kinds(b, ACQUIRE, RELEASE)
}

// a "forks or joins a thread which" b "acts as, forks or joins"
#[tactic(auto, unfolding(crate::specs::Chains::names_thread_of))]
fn names_thread_of(a: u32, b: u32) -> bool
    ensures { result ≡ names_thread_of a b }
{
    of_kinds(a, FORK, JOIN) && is_thread_of(object(a), b)
}

// Whether b acts as the thread, forks or joins it.
#[tactic(auto, unfolding(crate::specs::Chains::is_thread_of))]
fn is_thread_of(named: u32, b: u32) -> bool
    ensures { result ≡ is_thread_of named b }
{
    named == thread(b) || named == object(b) && of_kinds(b, FORK, JOIN)
}

// The four points of document 01's list.
#[tactic(auto, unfolding(crate::specs::Chains::dependent))]
pub fn dependent(a: u32, b: u32) -> bool
    ensures { result ≡ dependent a b }
{
    let touch = same_variable_one_write(a, b) || same_lock(a, b);
    let name = names_thread_of(a, b) || names_thread_of(b, a);
    thread(a) == thread(b) || touch || name
}

// Whether event i comes before event j or is it, at 8 * j + i; both counted from 0.
#[tactic(auto, unfolding(crate::specs::Chains::columns_to))]
pub fn all_before(events: [u32; MOST]) -> [bool; 64]
    ensures { result ≡ columns_to 8 events }
{
    let mut before = [false; 64];
    for j in 0..MOST {
        column(&mut before, events, j);
    }
    before
}

// What comes before event j or is it, from what comes before the events ahead of it.
#[tactic(auto, unfolding(crate::specs::Chains::column_to))]
fn column(before: &mut [bool; 64], events: [u32; MOST], j: usize)
    requires { j < 8 }
    ensures { before.new ≡ column_to 8 events j before.old }
{
    for i in 0..MOST {
        before[8 * j + i] = reaches(before, events, i, j);
    }
}

// The same event, or a chain from i to an event k ahead of j that j depends on.
fn reaches(before: &[bool; 64], events: [u32; MOST], i: usize, j: usize) -> bool
    ensures { result ≡ reaches_to 8 events before.now i j }
{
    (0..MOST).any(|k| links(before, events, i, j, k)) || i == j
}

// Whether a chain goes through event k.
#[tactic(auto, unfolding(crate::specs::Chains::links))]
fn links(before: &[bool; 64], events: [u32; MOST], i: usize, j: usize, k: usize) -> bool
    ensures { result ≡ links events before.now i j k }
{
    k < j && at(before, i, k) && dependent_places(events, k, j)
}

// The same of two events by their places, counted from 0.
#[tactic(auto, unfolding(crate::specs::Chains::dependent_at))]
pub fn dependent_places(events: [u32; MOST], i: usize, j: usize) -> bool
    ensures { result ≡ dependent_at events i j }
{
    i < MOST && j < MOST && dependent(events[i], events[j])
}

// The entry for events i and j.
#[tactic(auto, unfolding(crate::specs::Chains::entry))]
pub fn at(before: &[bool; 64], i: usize, j: usize) -> bool
    ensures { result ≡ entry before.now i j }
{
    i < MOST && j < MOST && before[8 * j + i]
}
