// The functions that programs in C and Rust call to go through all orders of a short log: a library of its own, so that the others are compiled as if it
// were not there.
#![tactic(auto)]

ghost use Rattle.std.specs.Prelude.{◌≡◌, replicate};
ghost use Rattle.event.specs.Refusals.{refusal_number};
ghost use Rattle.order_rows.specs.Rows.{order_places};
ghost use Rattle.orders_log.specs.OrderCalls.{FirstGives, NextGives, given_is, SaysSo};
ghost use Rattle.bilguzor_orders.specs.OrderNumbers.{order_numbers, numbers_given};

use event::refusal::Refused;
use order_rows::PLACES;
use orders_log::{Given, OrdersRefusal};

// The kinds of an answer: what is refused, as in `bilguzor`; an order; that the given one was the last.
// Kept: the C interface gives a kind as a number.
pub const LOG_REFUSED: u8 = 3;

pub const QUERY_REFUSED: u8 = 4;

pub const ORDER: u8 = 9;

pub const LAST: u8 = 10;

// An order of a log: the kind, the refusal's number, the event numbers, the refusal's offset.
#[repr(C)]
#[derive(Clone, Copy)]
pub struct OrderRow {
    pub kind: u8,
    pub number: u8,
    pub events: [u8; PLACES],
    pub offset: usize,
}

// The first order of the log.
#[unsafe(no_mangle)]
#[tactic(auto, using(crate::proofs::Numbers::said_in_numbers))]
pub extern "C" fn bilguzor_first_order(log: &[u8]) -> OrderRow
    ensures { SaysSo order_numbers (FirstGives log.now) result }
{
    numbers_of(orders_log::first(log))
}

// The order of the log after a given one, which has eight places, 0 beyond the log's events.
#[unsafe(no_mangle)]
#[tactic(auto, using(crate::proofs::Numbers::said_in_numbers))]
pub extern "C" fn bilguzor_next_order(log: &[u8], order: &[u8]) -> OrderRow
    ensures { SaysSo order_numbers (NextGives log.now order.now) result }
{
    numbers_of(orders_log::next(log, order))
}

fn numbers_of(given: Given) -> OrderRow
    ensures { result ≡ numbers_given (given_is given) }
{
    match given {
        Ok(Some(events)) => OrderRow {
            kind: ORDER,
            number: 0,
            events,
            offset: 0,
        },
        Ok(None) => OrderRow {
            kind: LAST,
            number: 0,
            events: [0; PLACES],
            offset: 0,
        },
        Err(OrdersRefusal::Log(r)) => refused(LOG_REFUSED, r),
        Err(OrdersRefusal::Orders(r)) => refused(QUERY_REFUSED, r),
    }
}

// A refusal, of the log or of what is asked; other fields 0.
fn refused(kind: u8, r: Refused) -> OrderRow
    ensures { result ≡ record { kind = kind; number = refusal_number r.reason; events = replicate order_places 0; offset = r.offset } }
{
    OrderRow {
        kind,
        number: r.reason.number(),
        events: [0; PLACES],
        offset: r.offset,
    }
}
