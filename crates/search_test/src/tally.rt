// What was seen: kinds of logs and patterns, matches and disagreements. The file stdin has the words for each count, a line each.
use crate::{locks, threads};
use event::refusal::Refused;
use plain::Leading;
use swap_search::counts::{add, add_if};
use swap_search::truth::Truth;
use swap_search::{patterns, words};

pub const COUNTS: usize = CHILDREN + THREADS;

const THREADS: usize = event::THREADS as usize;

// Kept: the words of the counts are lines of stdin, so that a count is told by its place.
// The places of the counts. Those of kinds are told by the byte of the operation, those of patterns by the number of slots, those of acting threads and of
// children by their number.
pub const KNOWN: usize = 0;

const LOGS: usize = 4;

const ACCEPTED: usize = 5;

const REFUSED: usize = 6;

const FULL: usize = 7;

const KINDS: usize = 7;

const SIZES: usize = 14;

const REPEATS: usize = 20;

const REPEATS_MATCHED: usize = 21;

const MATCHED: usize = 22;

const SWAPPED: usize = 23;

const UNMATCHED: usize = 24;

const ORDERS: usize = 25;

const MOST_ORDERS: usize = 26;

pub const DISAGREEMENTS: usize = 27;

pub const FIRST: usize = 28;

pub const PAIRS: usize = 31;

pub const REPLAYS: usize = 38;

pub const LISTED: usize = 47;

const AGAIN: usize = 52;

const ACTING: usize = 55;

const CHILDREN: usize = ACTING + THREADS;

pub(crate) fn log(counts: &mut [u64; COUNTS], read: Result<usize, Refused>, t: Truth) {
    add(counts, LOGS, 1);
    let accepted = read.is_ok();
    add_if(counts, ACCEPTED, accepted);
    add_if(counts, REFUSED, !accepted);
    if accepted {
        case(counts, t);
        result(counts, t);
        nested(counts, t);
        named(counts, t.leading);
    }
}

fn case(counts: &mut [u64; COUNTS], t: Truth) {
    let repeats = patterns::repeats(t.sketch);
    kinds(counts, t.leading);
    add_if(counts, FULL, t.leading.count == 7);
    add(counts, SIZES + t.sketch.size % 6, 1);
    add_if(counts, REPEATS, repeats);
    add_if(counts, REPEATS_MATCHED, repeats && t.present());
}

// One more for each kind that the log has.
fn kinds(counts: &mut [u64; COUNTS], l: Leading) {
    for i in 1..8 {
        add_if(counts, KINDS + i, plain::holds(l, i as u32));
    }
}

fn result(counts: &mut [u64; COUNTS], t: Truth) {
    let present = t.present();
    add_if(counts, MATCHED, present);
    add_if(counts, UNMATCHED, !present);
    add_if(counts, SWAPPED, present && !t.unswapped());
    add(counts, ORDERS, t.orders);
    counts[MOST_ORDERS] = counts[MOST_ORDERS].max(t.most);
}

// Logs in which a lock is taken again by its holder, and what is found in them.
fn nested(counts: &mut [u64; COUNTS], t: Truth) {
    let again = locks::taken_again(t.leading);
    let present = again && t.present();
    add_if(counts, AGAIN, again);
    add_if(counts, AGAIN + 1, present);
    add_if(counts, AGAIN + 2, present && !t.unswapped());
}

// One more for each thread that acts in the log, and for each that it forks or joins.
fn named(counts: &mut [u64; COUNTS], l: Leading) {
    for i in 0..THREADS {
        add_if(counts, ACTING + i, threads::acts(l, i as u32));
        add_if(counts, CHILDREN + i, threads::is_child(l, i as u32));
    }
}

pub(crate) fn print(counts: &[u64; COUNTS]) {
    words::print(counts);
}
