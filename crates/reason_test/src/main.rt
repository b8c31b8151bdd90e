// Holds reasons, and what makes them suffice, to plain means and to a plain search through all orders of many small logs, and prints how many were compared.
#![tactic(auto)]

mod answers;
mod least;
mod plainly;
mod tally;
mod wrong;

use run::RunRefusal;
use swap_search::samples::Sample;
use swap_search::truth::Truth;
use swap_search::{counts, orders, samples};
use tally::COUNTS;
use verdict_reason::Reasoned;

const LOGS: usize = 25000;

fn main() {
    let mut queue = [0u32; orders::ORDERS];
    let mut seen = [false; orders::MARKS];
    let mut log = [0u8; 64];
    let mut pattern = [0u8; 32];
    let mut counts = [0u64; COUNTS];
    all(&mut queue, &mut seen, &mut log, &mut pattern, &mut counts);
    tally::print(&counts);
}

fn all(
    queue: &mut [u32],
    seen: &mut [bool],
    log: &mut [u8],
    pattern: &mut [u8],
    counts: &mut [u64; COUNTS],
) {
    let mut drawn: u32 = 2;
    for n in 0..LOGS {
        let s = samples::draw(queue, seen, log, pattern, drawn, n);
        drawn = s.last();
        on_log(log, pattern, s, counts);
    }
}

// Compares, where the log and the pattern are within their buffers.
fn on_log(log: &[u8], pattern: &[u8], s: Sample, counts: &mut [u64; COUNTS]) {
    let Some(p) = pattern.get(..s.pattern) else {
        return;
    };
    let Some(l) = log.get(..s.log) else {
        return;
    };
    if !compared(p, l, s.truth, counts) {
        disagreement(p, l);
    }
    cut_short(p, l, counts);
}

fn compared(pattern: &[u8], log: &[u8], t: Truth, counts: &mut [u64; COUNTS]) -> bool {
    let read = event_log::read_log(log);
    let accepted = read.is_ok();
    let present = t.present();
    tally::log(counts, accepted, present);
    let r = verdict_reason::reason(pattern, log);
    let judged = r.map(|r| r.verdict);
    let due = counts::held(counts, tally::ON_MATCH, answers::is_due(judged, t, read));
    let same = answers::same(judged, run::run(pattern, log));
    let run = counts::held(counts, tally::ON_RUNS, same);
    let suffices = suffices(t, accepted, present, counts);
    let right = reasoned(t, r, accepted && !present, counts);
    due & run & suffices & right
}

// Exactly one slot is stopped where there is no match, and none where there is one.
fn suffices(t: Truth, accepted: bool, present: bool, counts: &mut [u64; COUNTS]) -> bool {
    if !accepted {
        return true;
    }
    let n = plainly::how_many(t);
    counts::add_if(counts, tally::STOPPED, n != 0);
    counts::add_if(
        counts,
        tally::FIRST_STOPPED,
        present && plainly::first_stops(t),
    );
    let right = if present { n == 0 } else { n == 1 };
    counts::held(counts, tally::ON_STOPPED, right)
}

// The reason of a log without a match (`none`); of any other, that the answer has no reason.
fn reasoned(
    t: Truth,
    r: Result<Reasoned, RunRefusal>,
    none: bool,
    counts: &mut [u64; COUNTS],
) -> bool {
    if !none {
        return counts::held(counts, tally::ON_DECIDED, answers::decided(r));
    }
    let Some(due) = plainly::reason_of(t) else {
        return counts::held(counts, tally::ON_REASONS, false);
    };
    tally::reason(counts, due);
    counts::add_if(counts, tally::ANOTHER, least::another(t, due));
    let given = counts::held(counts, tally::ON_REASONS, answers::gives(r, due));
    let least = counts::held(counts, tally::ON_LEAST, least::holds(t, due));
    let apart = wrong::told_apart(t, r, due, counts);
    let told = counts::held(counts, tally::ON_WRONG, apart);
    given & least & told
}

// The pattern without its last byte is refused, and there is no reason.
fn cut_short(pattern: &[u8], log: &[u8], counts: &mut [u64; COUNTS]) {
    let Some((_, short)) = pattern.split_last() else {
        return;
    };
    let r = verdict_reason::reason(short, log);
    let judged = r.map(|r| r.verdict);
    let run = run::run(short, log);
    counts::add_if(counts, tally::CUT, answers::pattern_refused(judged));
    counts::held(counts, tally::ON_RUNS, answers::same(judged, run));
    counts::held(counts, tally::ON_DECIDED, answers::decided(r));
}

fn disagreement(pattern: &[u8], log: &[u8]) {
    console::text(b"DISAGREEMENT:");
    console::bytes(pattern);
    console::text(b",");
    console::bytes(log);
    console::text(b"\n");
}
