// Lists of event numbers, one for each slot: all of them in rising order, and whether one satisfies the rule, by the table of which event comes before or is which.
use crate::truth::Truth;

// Seven events in five slots have so many lists.
pub const LISTS: u32 = 16807;

// The list of a number, a digit for each slot: the number in base `count`, and each digit one more. So the lists rise with their numbers: the first place
// where two of them differ is the highest digit that differs. None where the number has more digits.
pub fn list_of(number: u32, count: usize, size: usize) -> Option<[u16; 5]> {
    if size < 1 || 5 < size || count < 1 || 7 < count {
        return None;
    }
    let base = count as u32;
    let mut list = [0u16; 5];
    let mut rest = number;
    for i in (0..size).rev() {
        list[i] = (rest % base % 8 + 1) as u16;
        rest /= base;
    }
    (rest == 0).then_some(list)
}

// The number of the first list for the leading `size` slots, from a number on, that satisfies the rule.
pub fn first_from(t: Truth, size: usize, count: usize, from: u32) -> Option<u32> {
    for n in from..LISTS {
        if satisfies(t, size, count, list_of(n, count, size)?) {
            return Some(n);
        }
    }
    None
}

// Whether the events named for the leading `size` slots fit them, lie within the count, and can stand in the slots' sequence.
pub fn satisfies(t: Truth, size: usize, count: usize, numbers: [u16; 5]) -> bool {
    let named = &numbers[..size.min(5)];
    for (i, &number) in named.iter().enumerate() {
        if !fills(t, count, i, number) || !none_too_early(t, &named[i + 1..], number) {
            return false;
        }
    }
    true
}

// Whether the event of that number is within the count, and fits slot i, counted from 0.
pub fn fills(t: Truth, count: usize, i: usize, number: u16) -> bool {
    let n = number as usize;
    1 <= n
        && n <= count
        && n <= plain::MOST
        && i < 5
        && t.sketch.slots[i] == t.leading.events[n - 1]
}

// Whether none of the events named for later slots comes before the event of that number or is it.
fn none_too_early(t: Truth, later: &[u16], number: u16) -> bool {
    !later.iter().any(|n| comes_before(t, *n, number))
}

// Whether event a comes before event b or is it, both counted from 1; or one of the numbers is 0.
pub fn comes_before(t: Truth, a: u16, b: u16) -> bool {
    a < 1 || b < 1 || plain::at(&t.before, a as usize - 1, b as usize - 1)
}

// Whether two lists are the same from a place on.
pub fn same_from(a: [u16; 5], b: [u16; 5], from: usize) -> bool {
    a[from.min(5)..] == b[from.min(5)..]
}
