// Reasons with one field that is wrong, to which the answer is held as to the right one, so that the comparison is seen to fail.
use crate::plainly::Reason;
use crate::tally::{COUNTS, WRONG};
use crate::{answers, plainly};
use run::RunRefusal;
use swap_search::counts;
use swap_search::truth::Truth;
use verdict_reason::Reasoned;

// For each kind, how many such reasons there are and how many are told from the answer. Whether all are.
pub(crate) fn told_apart(
    t: Truth,
    r: Result<Reasoned, RunRefusal>,
    due: Reason,
    counts: &mut [u64; COUNTS],
) -> bool {
    let first = plainly::first_free(t, due.before, &[]);
    let mut after = due;
    after.slot = due.slot % 8 + 1;
    let mut sooner = due;
    sooner.last = first;
    let mut beside = due;
    beside.earlier = due.earlier.map(|slot| other(slot, due.before));
    let mut later = due;
    later.events[0] = due.events[0] % 8 + 1;
    let a = held(r, after, counts, WRONG, true);
    let b = held(r, sooner, counts, WRONG + 2, first != due.last);
    let c = held(r, beside, counts, WRONG + 4, beside.earlier != due.earlier);
    let d = held(r, later, counts, WRONG + 6, due.before != 0);
    a & b & c & d
}

// The slot after this one among so many, or the first of them.
fn other(slot: usize, slots: usize) -> usize {
    if slot < slots { slot + 1 } else { 1 }
}

// Whether the answer is told from the reason, where this is one that is wrong.
fn held(
    r: Result<Reasoned, RunRefusal>,
    w: Reason,
    counts: &mut [u64; COUNTS],
    i: usize,
    wrong: bool,
) -> bool {
    let told = !answers::gives(r, w);
    counts::add_if(counts, i, wrong);
    counts::add_if(counts, i % COUNTS + 1, wrong & told);
    !wrong | told
}
