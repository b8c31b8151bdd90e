// The orders of at most eight events as lists of their numbers: the first, the one after a given one, and whether a list is one.
#![tactic(auto)]

ghost use Rattle.std.specs.Prelude.{◌+◌, ◌≤◌, ◌<◌, ◌≡◌, true, ◌&&◌, ◌∷◌, ◌++◌, ltb, length, get_or, take, drop};
ghost use Rattle.event.specs.Slots.{no_event};
ghost use Rattle.trace.proofs.Lists.{filter};
ghost use Rattle.trace.proofs.Runs.{run};
ghost use Rattle.enumeration.specs.Computed.{contains, remains, refill, free, raising, straight, covered, ordered, next_order};
ghost use Rattle.order_rows.specs.Rows.{order_places, event_numbered, dependent_in, least_of, order_row, next_row};

use event::{Event, Operation};

// Of how many events orders are given, at most.
// Kept: that a list has no more numbers stands in contracts; with a type that says so each function would build one from a slice of numbers, and prove it.
pub const PLACES: usize = 8;

// The event of a number; thread 0, mark 0 where there is none.
fn event_at(events: &[Event; PLACES], k: u8) -> Event
    ensures { result ≡ event_numbered events.now k }
{
    let n = k as usize;
    if n == 0 || PLACES < n {
        return no_event();
    }
    events[n - 1]
}

// At places beyond a log's events.
// Kept: fixed memory, and the definition of an order goes by an event for each number: with Options the test for dependence would have four cases.
pub fn no_event() -> Event
    ensures { result ≡ no_event }
{
    Event {
        thread: 0,
        operation: Operation::Mark { mark: 0 },
    }
}

// Whether y is smaller than k, whose event depends on that of y.
fn blocks(events: &[Event; PLACES], y: u8, k: u8) -> bool
    ensures { result ≡ ltb y k && dependent_in events.now y k }
{
    y < k && dependence::depend(event_at(events, y), event_at(events, k))
}

// Whether k depends on no smaller one of these numbers.
fn free(events: &[Event; PLACES], numbers: &[u8], k: u8) -> bool
    ensures { result ≡ free (dependent_in events.now) numbers.now k }
{
    !numbers.iter().any(|y| blocks(events, *y, k))
}

// Whether the first of these numbers, x, can be raised to k: a larger one of them that may stand before the others.
fn raises(events: &[Event; PLACES], x: u8, numbers: &[u8], k: u8) -> bool
    ensures { result ≡ raising (dependent_in events.now) x numbers.now k }
{
    x < k && numbers.contains(&k) && free(events, numbers, k)
}

// The smallest of the numbers 1 to n to which the first of these, x, can be raised.
fn raised_to(events: &[Event; PLACES], x: u8, numbers: &[u8], n: u8) -> Option<u8>
    requires { n ≤ order_places }
    ensures { result ≡ least_of (filter (raising (dependent_in events.now) x numbers.now) (run 1 n)) }
{
    (1..n + 1).find(|k| raises(events, x, numbers, *k))
}

// Whether k is one of these numbers, and not z.
fn remains(numbers: &[u8], z: u8, k: u8) -> bool
    ensures { result ≡ remains numbers.now z k }
{
    numbers.contains(&k) && k != z
}

// The order with the number at a place raised to z, and what remains behind it rising.
fn raise(order: &[u8], p: usize, z: u8) -> [u8; PLACES]
    requires { (p < length order.now) × (length order.now ≤ order_places) × (p + 1 + length (refill (length order.now) (drop p order.now) z) ≤ order_places) }
    ensures { result ≡ order_row (take p order.now ++ (z ∷ refill (length order.now) (drop p order.now) z)) }
{
    let mut row = [0; PLACES];
    // Kept: a test at each place, since a plain copy makes the library for C need a function from outside.
    for i in 0..PLACES {
        if i < p {
            row[i] = order[i];
        }
    }
    row[p] = z;
    let mut at = p + 1;
    for k in 1..order.len() as u8 + 1 {
        if remains(&order[p..], z, k) {
            row[at] = k;
            at += 1;
        }
    }
    row
}

// The order of the events after a given one, 0 beyond its numbers.
pub fn next(events: [Event; PLACES], order: &[u8]) -> Option<[u8; PLACES]>
    requires { (length order.now ≤ order_places) × (ordered (dependent_in events) (length order.now) order.now ≡ true) }
    ensures { result ≡ next_row (next_order (length order.now) (dependent_in events) order.now) }
{
    for p in (0..order.len()).rev() {
        if let Some(z) = raised_to(&events, order[p], &order[p..], order.len() as u8) {
            return Some(raise(order, p, z));
        }
    }
    None
}

// The first order of so many events.
#[tactic(auto, using(crate::proofs::Filled::one_more))]
pub fn first(n: usize) -> [u8; PLACES]
    requires { n ≤ order_places }
    ensures { result ≡ order_row (run 1 n) }
{
    let mut row = [0; PLACES];
    for i in 0..n {
        row[i] = i as u8 + 1;
    }
    row
}

// Whether no number stands before itself, nor before a smaller one on which it depends.
fn straight(events: &[Event; PLACES], order: &[u8]) -> bool
    ensures { result ≡ straight (dependent_in events.now) order.now }
{
    let mut rest = order;
    while let Some((x, behind)) = rest.split_first() {
        if behind.contains(x) || !free(events, behind, *x) {
            return false;
        }
        rest = behind;
    }
    true
}

// Whether each of the numbers from 1 to the order's length stands in it.
fn complete(order: &[u8]) -> bool
    requires { length order.now ≤ order_places }
    ensures { result ≡ covered (run 1 (length order.now)) order.now }
{
    (1..order.len() as u8 + 1).all(|k| order.contains(&k))
}

// Whether the number is one of 1 to n.
fn among(k: u8, n: usize) -> bool
    ensures { result ≡ contains (run 1 n) k }
{
    0 < k && k as usize <= n
}

// Whether the order has no number above its length, and no 0.
fn within(order: &[u8]) -> bool
    ensures { result ≡ covered order.now (run 1 (length order.now)) }
{
    order.iter().all(|k| among(*k, order.len()))
}

// Whether the list is an order of as many events as it has numbers.
pub fn is_order(events: [Event; PLACES], order: &[u8]) -> bool
    requires { length order.now ≤ order_places }
    ensures { result ≡ ordered (dependent_in events) (length order.now) order.now }
{
    straight(&events, order) && complete(order) && within(order)
}
