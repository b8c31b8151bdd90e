// The order query: how one event of a log stands to another.
#![tactic(auto)]

ghost use Rattle.std.specs.Prelude.{◌≡◌, cond, Some};
ghost use Rattle.order_query.specs.Query.{Answers, order_is};
ghost use Rattle.order_query.specs.Awaiting.{stamped};
ghost use Rattle.order_query.specs.declared.QueryRefusal.TheVariants.{Log};

use clock::Stamp;
use event::refusal::{Refusal, Refused};
use relation::{Relation, StampedEvent};

// What is refused: the log, or what is asked of it.
#[derive(Clone, Copy, PartialEq, Eq)]
pub enum QueryRefusal {
    Log(Refused),
    Query(Refused),
}

// What reading the log refuses.
impl From<Refused> for QueryRefusal {
    ghost from_gives = { λ r e. e ≡ Log r };

    fn from(refused: Refused) -> QueryRefusal {
        QueryRefusal::Log(refused)
    }
}

// How event number `first` of the log stands to event number `second`.
pub fn query(log: &[u8], first: usize, second: usize) -> Result<Relation, QueryRefusal>
    ensures { Answers log.now first second (order_is result) }
{
    let mut state = rules::fresh();
    let mut clocks = clock::fresh();
    let mut one = None;
    let mut other = None;
    let mut taken: usize = 0;
    let mut at: usize = 0;
    while let Some((event, next)) = event_log::step(log, at, &mut state, taken)? {
        taken += 1;
        let stamp = clock::advance(&mut clocks, event);
        one = met(one, taken == first, event.thread, stamp);
        other = met(other, taken == second, event.thread, stamp);
        at = next;
    }
    let missing = QueryRefusal::Query(Refusal::NoSuchEvent.at(0));
    Ok(relation::compare(one.ok_or(missing)?, other.ok_or(missing)?))
}

// What is known of an event that is asked for once an event of the thread has passed: it was known before, or this is the one.
fn met(known: Option<StampedEvent>, asked: bool, thread: u8, stamp: Stamp) -> Option<StampedEvent>
    ensures { result ≡ cond asked (Some (stamped thread stamp)) known }
{
    if !asked {
        return known;
    }
    let place = clock::count_of(thread, stamp);
    Some(StampedEvent {
        thread,
        place,
        stamp,
    })
}
