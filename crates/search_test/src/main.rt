// Holds runs, sessions, replays, order queries and listed orders to a plain search through all orders of many small logs, and prints how many were compared.
#![tactic(auto)]

mod compare;
mod first_example;
mod grouped;
mod known;
mod listed;
mod locks;
mod pairs;
mod replays;
mod tally;
mod threads;

use event::refusal::Refused;
use run::RunRefusal;
use session::Verdict;
use swap_search::samples::Sample;
use swap_search::truth::Truth;
use swap_search::{counts, orders, samples};
use tally::COUNTS;

const LOGS: usize = 100000;

fn main() {
    let mut queue = [0u32; orders::ORDERS];
    let mut seen = [false; orders::MARKS];
    let mut log = [0u8; 64];
    let mut pattern = [0u8; 32];
    let mut counts = [0u64; COUNTS];
    known::run(&mut queue, &mut seen, &mut counts);
    all(&mut queue, &mut seen, &mut log, &mut pattern, &mut counts);
    tally::print(&counts);
}

fn all(
    queue: &mut [u32],
    seen: &mut [bool],
    log: &mut [u8],
    pattern: &mut [u8],
    counts: &mut [u64; COUNTS],
) {
    let mut drawn: u32 = 2;
    for n in 0..LOGS {
        let s = samples::draw(queue, seen, log, pattern, drawn, n);
        drawn = s.last();
        on_log(queue, seen, log, pattern, s, counts);
    }
}

// Compares, where the log and the pattern are within their buffers.
fn on_log(
    queue: &mut [u32],
    seen: &mut [bool],
    log: &[u8],
    pattern: &[u8],
    s: Sample,
    counts: &mut [u64; COUNTS],
) {
    let t = s.truth;
    let Some(p) = pattern.get(..s.pattern) else {
        return;
    };
    let Some(l) = log.get(..s.log) else {
        return;
    };
    pairs::of(l, t.leading, counts);
    compared(queue, seen, p, l, t, counts);
}

fn compared(
    queue: &mut [u32],
    seen: &mut [bool],
    pattern: &[u8],
    log: &[u8],
    t: Truth,
    counts: &mut [u64; COUNTS],
) {
    let read = event_log::read_log(log);
    tally::log(counts, read, t);
    let judged = run::run(pattern, log);
    let agreed = agree(pattern, log, t, read, judged);
    counts::add_if(counts, tally::DISAGREEMENTS, !agreed);
    let first = first_example::agrees(judged, t, counts);
    let replayed = replays::agree(queue, seen, pattern, log, t, judged, counts);
    let listed = listed::agree(queue, seen, log, t, read, judged, counts);
    if !(agreed && first && replayed && listed) {
        disagreement(pattern, log);
    }
}

fn agree(
    pattern: &[u8],
    log: &[u8],
    t: Truth,
    read: Result<usize, Refused>,
    judged: Result<Verdict, RunRefusal>,
) -> bool {
    compare::run_agrees(judged, t, read) && compare::session_agrees(pattern, log, t, read)
}

fn disagreement(pattern: &[u8], log: &[u8]) {
    console::text(b"DISAGREEMENT:");
    console::bytes(pattern);
    console::text(b",");
    console::bytes(log);
    console::text(b"\n");
}
