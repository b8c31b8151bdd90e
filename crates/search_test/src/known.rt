// Lists whose orders are counted without a search: seven marks, shared out among threads.
use crate::tally::{COUNTS, KNOWN};
use plain::MOST;
use swap_search::orders::Question;
use swap_search::{counts, orders};

// The counts are 1; 7! / (4! 3!) = 35; 7! / (3! 2! 2!) = 210; 7! = 5040.
pub(crate) fn run(queue: &mut [u32], seen: &mut [bool], counts: &mut [u64; COUNTS]) {
    counts::add(counts, KNOWN, orders_of(queue, seen, 1));
    counts::add(counts, KNOWN + 1, orders_of(queue, seen, 2));
    counts::add(counts, KNOWN + 2, orders_of(queue, seen, 3));
    counts::add(counts, KNOWN + 3, orders_of(queue, seen, 7));
}

// How many orders are looked at for a slot that no event fits.
fn orders_of(queue: &mut [u32], seen: &mut [bool], threads: u8) -> u64 {
    let s = orders::search(
        queue,
        seen,
        Question {
            events: marks(threads),
            count: 7,
            slots: [mark(event::THREADS); MOST],
            size: 1,
        },
    );
    s.orders
}

// Mark 0 of each thread in turn.
fn marks(threads: u8) -> [u32; MOST] {
    let mut events = [mark(0); MOST];
    let mut next: u8 = 0;
    for event in events.iter_mut() {
        *event = mark(next);
        next = after(next, threads);
    }
    events
}

fn after(thread: u8, threads: u8) -> u8 {
    if thread < event::THREADS && thread + 1 < threads {
        return thread + 1;
    }
    0
}

fn mark(thread: u8) -> u32 {
    plain::number(plain::MARK, thread, 0)
}
