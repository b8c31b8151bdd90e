// What was seen. The file stdin has the words for each count, a line each.
use crate::plainly::Reason;
use swap_search::counts::{add, add_if};
use swap_search::words;

pub const COUNTS: usize = 36;

// The places of the counts. Those of slots are told by the slot's number.
const LOGS: usize = 0;

const ACCEPTED: usize = 1;

const REFUSED: usize = 2;

const MATCHED: usize = 3;

const UNMATCHED: usize = 4;

pub const STOPPED: usize = 5;

pub const FIRST_STOPPED: usize = 6;

pub const CUT: usize = 7;

const NO_FIT: usize = 8;

const BEFORE: usize = 9;

const IS: usize = 10;

const SLOTS: usize = 10;

const EARLIER: usize = 15;

pub const ANOTHER: usize = 20;

pub const WRONG: usize = 21;

pub const ON_MATCH: usize = 29;

pub const ON_RUNS: usize = 30;

pub const ON_REASONS: usize = 31;

pub const ON_LEAST: usize = 32;

pub const ON_STOPPED: usize = 33;

pub const ON_DECIDED: usize = 34;

pub const ON_WRONG: usize = 35;

pub(crate) fn log(counts: &mut [u64; COUNTS], accepted: bool, present: bool) {
    add(counts, LOGS, 1);
    add_if(counts, ACCEPTED, accepted);
    add_if(counts, REFUSED, !accepted);
    add_if(counts, MATCHED, accepted && present);
    add_if(counts, UNMATCHED, accepted && !present);
}

// The case, the slot, and the slot in whose way it stands.
pub(crate) fn reason(counts: &mut [u64; COUNTS], r: Reason) {
    let is = is_chosen(r);
    add_if(counts, NO_FIT, r.last.is_none());
    add_if(counts, BEFORE, r.last.is_some() && !is);
    add_if(counts, IS, r.last.is_some() && is);
    add(counts, SLOTS + r.slot % 6, 1);
    if let Some(earlier) = r.earlier {
        add(counts, EARLIER + earlier % 5, 1);
    }
}

// Whether the last event that fits is the event of the lowest slot.
fn is_chosen(r: Reason) -> bool {
    match r.earlier {
        Some(i) if i != 0 => r.last == r.events.get(i - 1).copied(),
        _ => false,
    }
}

pub(crate) fn print(counts: &[u64; COUNTS]) {
    words::print(counts);
}
