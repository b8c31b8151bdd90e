// All orders of a short log, one after another: the first, and the one after a given one.
#![tactic(auto)]

ghost use Rattle.std.specs.Prelude.{◌≡◌, ◌↔◌, true, List, ℕ, ◌≤◌, length, take, replicate, MatchResult};
ghost use Rattle.event.specs.declared.Event.{Event};
ghost use Rattle.event.specs.Slots.{no_event};
ghost use Rattle.event.specs.Places.{in_places};
ghost use Rattle.event_log.specs.Whole.{read_log, accepted};
ghost use Rattle.enumeration.specs.Computed.{ordered};
ghost use Rattle.order_rows.specs.Rows.{order_places, dependent_in};
ghost use Rattle.orders_log.specs.OrderCalls.{IsRow, ShortLog, Unlisted, FirstGives, NextGives, refusal_is, GivesSo};

use event::Event;
use event::refusal::{Refusal, Refused};
use order_rows::PLACES;

// Why no order is given: a refusal of the log, or of what is asked of it.
#[derive(Clone, Copy, PartialEq, Eq)]
pub enum OrdersRefusal {
    Log(Refused),
    Orders(Refused),
}

// What a call gives: an order's event numbers, 0 at the places beyond the log's events; or none, since the given one was the last.
pub type Given = Result<Option<[u8; PLACES]>, OrdersRefusal>;

// The first order of the log.
#[tactic(auto, using(crate::proofs::Answers::first_refused, crate::proofs::Answers::first_given))]
pub fn first(log: &[u8]) -> Given
    ensures { GivesSo (FirstGives log.now) result }
{
    let n = events_in(log)?;
    Ok(Some(order_rows::first(n)))
}

// The order of the log after a given one: a list of eight event numbers, 0 beyond the log's events.
#[tactic(auto, using(crate::proofs::Answers::next_refused, crate::proofs::Answers::next_given))]
pub fn next(log: &[u8], row: &[u8]) -> Given
    ensures { GivesSo (NextGives log.now row.now) result }
{
    let n = events_in(log)?;
    let events = events_of(log, n);
    if !is_row(events, n, row) {
        return Err(OrdersRefusal::Orders(Refusal::NoOrder.at(0)));
    }
    Ok(order_rows::next(events, &row[..n]))
}

// How many events the log holds, at most eight.
#[tactic(auto, using(crate::proofs::Answers::log_broken))]
fn events_in(log: &[u8]) -> Result<usize, OrdersRefusal>
    ensures { MatchResult result (ShortLog log.now) (λ r. Unlisted log.now (refusal_is r)) }
{
    let events = event_log::read_log(log).map_err(OrdersRefusal::Log)?;
    if PLACES < events {
        return Err(OrdersRefusal::Orders(Refusal::TooManyToOrder.at(0)));
    }
    Ok(events)
}

// The first events of a log, so many of them; thread 0, mark 0 beyond them.
fn events_of(log: &[u8], count: usize) -> [Event; PLACES]
    requires { count ≤ order_places }
    ensures { (es : List Event) → read_log log.now ≡ accepted es → count ≡ length es → result ≡ in_places no_event order_places es }
{
    let mut events = [order_rows::no_event(); PLACES];
    for n in 0..count {
        events[n] = event_log::event_numbered(log, n + 1);
    }
    events
}

// Whether the list is an order of the events, so many of them, with 0 beyond it, eight places in all.
fn is_row(events: [Event; PLACES], count: usize, row: &[u8]) -> bool
    requires { count ≤ order_places }
    ensures order { result ≡ true → (length row.now ≡ order_places) × (ordered (dependent_in events) count (take count row.now) ≡ true) }
    ensures exact { (es : List Event) → count ≡ length es → events ≡ in_places no_event order_places es → (result ≡ true) ↔ IsRow es row.now }
{
    row.len() == PLACES && zeros(&row[count..]) && order_rows::is_order(events, &row[..count])
}

// Whether each number is 0.
fn zeros(numbers: &[u8]) -> bool
    ensures { (result ≡ true) ↔ (numbers.now ≡ replicate (length numbers.now) 0) }
{
    numbers.iter().all(|k| *k == 0)
}
