// The events of a reason, held to all lists of event numbers that satisfy the rule for their slots within the whole log: they are one, and in no slot has another
// a smaller number.
use crate::plainly::Reason;
use swap_search::lists;
use swap_search::lists::LISTS;
use swap_search::truth::Truth;

pub(crate) fn holds(t: Truth, r: Reason) -> bool {
    let count = t.leading.count;
    lists::satisfies(t, r.before, count, r.events) && none_smaller(t, r.before, count, r.events)
}

fn none_smaller(t: Truth, size: usize, count: usize, events: [u16; 5]) -> bool {
    for n in 0..LISTS {
        let Some(list) = lists::list_of(n, count, size) else {
            return true;
        };
        if lists::satisfies(t, size, count, list) && !each_at_most(events, list) {
            return false;
        }
    }
    true
}

fn each_at_most(a: [u16; 5], b: [u16; 5]) -> bool {
    a.iter().zip(b.iter()).all(|(x, y)| x <= y)
}

// Whether another such list follows the first.
pub(crate) fn another(t: Truth, r: Reason) -> bool {
    let count = t.leading.count;
    match lists::first_from(t, r.before, count, 0) {
        Some(first) if first < LISTS => {
            lists::first_from(t, r.before, count, first + 1).is_some()
        }
        _ => false,
    }
}
