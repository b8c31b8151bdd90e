// What the search says of a pattern and a log: for each number of leading events, whether they have an order that holds the pattern.
use crate::orders;
use crate::orders::{Question, Searched};
use crate::patterns::Sketch;
use plain::{Leading, MOST};

// `found` at n speaks of the leading n events, `before` of which event comes before which, `orders` of the orders looked at, `most` of those in one search.
#[derive(Clone, Copy)]
pub struct Truth {
    pub leading: Leading,
    pub sketch: Sketch,
    pub before: [bool; 64],
    pub found: [bool; MOST],
    pub orders: u64,
    pub most: u64,
}

pub fn of(queue: &mut [u32], seen: &mut [bool], leading: Leading, sketch: Sketch) -> Truth {
    let events = leading.events;
    let before = plain::all_before(events);
    let mut found = [false; MOST];
    let mut orders: u64 = 0;
    let mut most: u64 = 0;
    for n in 0..MOST {
        let s = of_first(queue, seen, leading, sketch, n);
        found[n] = s.holds;
        orders = orders.saturating_add(s.orders);
        most = most.max(s.orders);
    }
    Truth {
        leading,
        sketch,
        before,
        found,
        orders,
        most,
    }
}

// The search among the leading n events, where there are so many.
fn of_first(queue: &mut [u32], seen: &mut [bool], l: Leading, k: Sketch, n: usize) -> Searched {
    if l.count < n {
        return Searched {
            holds: false,
            orders: 0,
            found: 0,
        };
    }
    orders::search(queue, seen, question(l, k, n))
}

// Whether the leading n events have an order that holds the pattern.
pub fn question(l: Leading, k: Sketch, n: usize) -> Question {
    let events = l.events;
    let mut slots = [0; MOST];
    slots[..5].copy_from_slice(&k.slots);
    Question {
        events,
        count: n,
        slots,
        size: k.size,
    }
}

impl Truth {
    // Whether the leading n events have a match.
    pub fn matched(self, n: usize) -> bool {
        self.found.get(n).is_some_and(|f| *f)
    }

    // The count of the leading n events: the smallest number whose leading events have a match; none without one.
    pub fn count(self, n: usize) -> Option<usize> {
        if !self.matched(n) {
            return None;
        }
        self.found.iter().position(|f| *f)
    }

    // Whether the whole log has a match.
    pub fn present(self) -> bool {
        self.matched(self.leading.count)
    }

    // Whether the log's own order holds the pattern.
    pub fn unswapped(self) -> bool {
        orders::unswapped(question(self.leading, self.sketch, self.leading.count))
    }
}
