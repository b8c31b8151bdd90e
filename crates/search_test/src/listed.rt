// All orders that the library gives of a log, one after another, held to those that the plain search finds: each is one of them, larger than the one before it,
// and they are as many. Whether one of them holds the pattern is held to what a run says.
ghost use Rattle.std.specs.Prelude.{◌<◌};

use crate::compare;
use crate::tally::{COUNTS, LISTED};
use event::refusal::{Refusal, Refused};
use order_rows::PLACES;
use orders_log::OrdersRefusal;
use run::RunRefusal;
use session::Verdict;
use swap_search::orders::Question;
use swap_search::truth::Truth;
use swap_search::{counts, orders, truth};

// What was seen on the way: whether all went well, how many orders were given, and whether one holds the slots.
#[derive(Clone, Copy)]
struct Gone {
    right: bool,
    given: usize,
    holds: bool,
}

// Before any order.
const NONE_GIVEN: Gone = Gone {
    right: true,
    given: 0,
    holds: false,
};

// How many orders were given, in how many logs one of them holds the pattern, how many lists were asked for that are no order, how many logs were wrong, and in how
// many an order that the search did not find is seen to be wrong.
pub(crate) fn agree(
    queue: &mut [u32],
    seen: &mut [bool],
    log: &[u8],
    t: Truth,
    read: Result<usize, Refused>,
    judged: Result<Verdict, RunRefusal>,
    counts: &mut [u64; COUNTS],
) -> bool {
    if let Err(refused) = read {
        return counts::held(counts, LISTED + 3, refuses(log, refused));
    }
    let q = truth::question(t.leading, t.sketch, t.leading.count);
    let found = orders::all(queue, seen, q);
    let w = go_through(seen, log, q);
    orders::clear(queue, seen, found);
    counts::add(counts, LISTED, w.given as u64);
    counts::add_if(counts, LISTED + 1, w.holds);
    counts::add_if(counts, LISTED + 4, refutes(seen, log, q));
    let exact = w.given == found && w.holds == compare::matched(judged);
    let turned = turned_round(log, q, counts);
    counts::held(counts, LISTED + 3, w.right && exact && turned)
}

// Whether the first order is held to be wrong once the search has forgotten it, so that the comparison is seen to fail.
fn refutes(seen: &[bool], log: &[u8], q: Question) -> bool {
    let Ok(Some(row)) = orders_log::first(log) else {
        return true;
    };
    !one_more(NONE_GIVEN, seen, None, row, q).right
}

// Whether both calls refuse the log as reading it does.
fn refuses(log: &[u8], refused: Refused) -> bool {
    let due = Err(OrdersRefusal::Log(refused));
    orders_log::first(log) == due && orders_log::next(log, b"") == due
}

// From the first order to the last. Seven events have so many orders at most.
fn go_through(seen: &[bool], log: &[u8], q: Question) -> Gone {
    let mut w = NONE_GIVEN;
    let mut before = None;
    let mut given = orders_log::first(log);
    for _ in 0..orders::ORDERS {
        let Ok(Some(row)) = given else {
            break;
        };
        w = one_more(w, seen, before, row, q);
        before = Some(row);
        given = orders_log::next(log, &row);
    }
    Gone {
        right: w.right && given == Ok(None),
        ..w
    }
}

// One order more: one that the search found, and larger than the one before it.
fn one_more(
    w: Gone,
    seen: &[bool],
    before: Option<[u8; PLACES]>,
    row: [u8; PLACES],
    q: Question,
) -> Gone {
    let order = events_of(row, q.count);
    let rising = before.is_none_or(|smaller| smaller < row);
    let reached = orders::marked(seen, order) && beyond(row, q.count);
    Gone {
        right: w.right && rising && reached,
        given: w.given.saturating_add(1),
        holds: w.holds || orders::holds(order, q),
    }
}

// The events at the order's places, counted from 0; 7, which no list has, for a number that is none. Those beyond the list stay where they are.
// Kept: no order that the search marks has a 7, so that one lookup tells that a row is no order at all.
fn events_of(row: [u8; PLACES], count: usize) -> [usize; 7] {
    let mut order = [0usize; 7];
    for i in 0..7 {
        order[i] = event_of(row[i], count, i);
    }
    order
}

fn event_of(number: u8, count: usize, i: usize) -> usize {
    let n = number as usize;
    if count <= i {
        return i;
    }
    if n == 0 || count < n {
        return 7;
    }
    n - 1
}

// Whether the places beyond so many hold 0.
fn beyond(row: [u8; PLACES], count: usize) -> bool {
    row.iter().skip(count).all(|k| *k == 0)
}

// The recorded order with two neighbours turned round is refused where they are dependent, and else is an order.
fn turned_round(log: &[u8], q: Question, counts: &mut [u64; COUNTS]) -> bool {
    let Ok(Some(row)) = orders_log::first(log) else {
        return false;
    };
    let mut right = true;
    for i in 0..6 {
        if i + 1 < q.count {
            right = turned_at(log, q, row, i, counts) && right;
        }
    }
    right
}

fn turned_at(
    log: &[u8],
    q: Question,
    row: [u8; PLACES],
    i: usize,
    counts: &mut [u64; COUNTS],
) -> bool
    requires { i < 7 }
{
    let mut turned = row;
    turned.swap(i, i + 1);
    let given = orders_log::next(log, &turned);
    let dependent = plain::dependent_places(q.events, i, i + 1);
    counts::add_if(counts, LISTED + 2, dependent);
    let refused = given == Err(OrdersRefusal::Orders(Refusal::NoOrder.at(0)));
    refused == dependent
}
