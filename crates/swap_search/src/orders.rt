// The plain search: every order that swaps of neighbouring independent events make of a list of at most seven, gone through one by one.
ghost use Rattle.std.specs.Prelude.{◌≡◌, true, ◌<◌};

use plain::MOST;

// Seven events have so many orders at most.
pub const ORDERS: usize = 5040;

// Six digits in base 8. They tell an order of seven places, as the seventh event is the one left over.
pub const MARKS: usize = 262144;

// The events as they stand.
const RECORDED: [usize; 7] = [0, 1, 2, 3, 4, 5, 6];

// Whether the first `count` events have an order that holds the slots, `size` of them.
// Kept: fixed memory; in place of a prefix it can be copied, and a size beyond the slots is never held.
#[derive(Clone, Copy)]
pub struct Question {
    pub events: [u32; MOST],
    pub count: usize,
    pub slots: [u32; MOST],
    pub size: usize,
}

// The answer, how many orders were looked at, and how many were found.
#[derive(Clone, Copy)]
pub struct Searched {
    pub holds: bool,
    pub orders: u64,
    pub found: usize,
}

// Goes from order to order by single swaps, and stops at the first that holds the slots. `seen` is all false, and is so again afterwards.
pub fn search(queue: &mut [u32], seen: &mut [bool], q: Question) -> Searched {
    let s = explore(queue, seen, q);
    clear(queue, seen, s.found);
    s
}

// Goes through all orders, whether they hold the slots or not, and answers how many there are. They stay marked in `seen`.
pub fn all(queue: &mut [u32], seen: &mut [bool], q: Question) -> usize {
    let none_holds = Question {
        size: MOST + 1,
        ..q
    };
    explore(queue, seen, none_holds).found
}

// Whether the order was found: the mark tells all places but the first, and the sum tells that.
pub fn marked(seen: &[bool], order: [usize; 7]) -> bool {
    seen.get(mark_of(number_of(order))).is_some_and(|s| *s) && sum(order) == 21
}

fn sum(order: [usize; 7]) -> usize {
    order.iter().fold(0, |n, place| n % 64 + place % 8)
}

// The mark of an order's number.
fn mark_of(number: u32) -> usize {
    number as usize % MARKS
}

fn explore(queue: &mut [u32], seen: &mut [bool], q: Question) -> Searched {
    let mut found = enqueue(queue, seen, number_of(RECORDED), 0);
    for head in 0..ORDERS {
        if head >= found {
            return result_of(false, head, found);
        }
        let order = order_of(queue.get(head).copied().unwrap_or(0));
        if holds(order, q) {
            return result_of(true, head + 1, found);
        }
        found = neighbours(queue, seen, order, q, found);
    }
    result_of(false, ORDERS, found)
}

fn result_of(holds: bool, orders: usize, found: usize) -> Searched {
    Searched {
        holds,
        orders: orders as u64,
        found,
    }
}

// Whether the events as they stand, unswapped, hold the slots.
pub fn unswapped(q: Question) -> bool {
    holds(RECORDED, q)
}

// Puts each order that is one swap away, where it is new; the new end of the queue.
fn neighbours(
    queue: &mut [u32],
    seen: &mut [bool],
    order: [usize; 7],
    q: Question,
    tail: usize,
) -> usize {
    let mut end = tail;
    for i in 0..6 {
        if independent(order, q, i) {
            end = enqueue(queue, seen, number_of(swapped(order, i)), end);
        }
    }
    end
}

// Whether the events at places i and i + 1 of the order are there and independent.
fn independent(order: [usize; 7], q: Question, i: usize) -> bool {
    i < 6 && i + 1 < q.count && !plain::dependent_places(q.events, order[i], order[i + 1])
}

fn swapped(mut order: [usize; 7], i: usize) -> [usize; 7] {
    if i < 6 {
        order.swap(i, i + 1);
    }
    order
}

// Whether the order holds the slots: from the left, each slot is filled by the first event that fits it.
pub fn holds(order: [usize; 7], q: Question) -> bool {
    let mut slot: usize = 0;
    for &event in order.iter().take(q.count) {
        if fits(q, slot, event) {
            slot += 1;
        }
    }
    q.size <= slot
}

// Whether there is such a slot, and the event fits it. An event and a slot that it fits have the same number.
fn fits(q: Question, slot: usize, event: usize) -> bool
    ensures { result ≡ true → slot < 8 }
{
    slot < q.size && slot < MOST && event < MOST && q.slots[slot] == q.events[event]
}

// An order as a number: a digit in base 8 for each place, the first place highest.
fn number_of(order: [usize; 7]) -> u32 {
    order
        .iter()
        .fold(0u32, |n, place| n % 262144 * 8 + (place % 8) as u32)
}

fn order_of(number: u32) -> [usize; 7] {
    let mut order = [0usize; 7];
    let mut rest = number;
    for i in (0..7).rev() {
        order[i] = (rest % 8) as usize;
        rest /= 8;
    }
    order
}

// Puts an order at the end of the queue, unless it was seen; the new end.
fn enqueue(queue: &mut [u32], seen: &mut [bool], order: u32, tail: usize) -> usize {
    let Some(mark) = seen.get_mut(mark_of(order)) else {
        return tail;
    };
    let Some(place) = queue.get_mut(tail) else {
        return tail;
    };
    if *mark {
        return tail;
    }
    *mark = true;
    *place = order;
    tail + 1
}

// Forgets the orders before the end of the queue.
pub fn clear(queue: &[u32], seen: &mut [bool], tail: usize) {
    for order in queue.iter().take(tail) {
        if let Some(mark) = seen.get_mut(mark_of(*order)) {
            *mark = false;
        }
    }
}
