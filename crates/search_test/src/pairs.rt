// Every pair of event numbers of a drawn log asked of the order query, and held to a plain computation of the chain, both ways round.
use crate::tally::{COUNTS, PAIRS};
use event::refusal::{Refusal, Refused};
use order_query::QueryRefusal;
use plain::Leading;
use relation::Relation;
use swap_search::counts;

// Numbers 0 to 8: no log has more than seven events.
pub(crate) fn of(log: &[u8], l: Leading, counts: &mut [u64; COUNTS]) {
    let before = plain::all_before(l.events);
    let read = event_log::read_log(log);
    for first in 0..9 {
        for second in 0..9 {
            let answer = order_query::query(log, first, second);
            let right = answer == due(read, &before, first, second);
            count(counts, answer, direct(l, first, second), right);
        }
    }
}

// How many were asked, how many of each answer, how many chains between events that are not dependent, and how many answers were wrong.
fn count(
    counts: &mut [u64; COUNTS],
    answer: Result<Relation, QueryRefusal>,
    direct: bool,
    right: bool,
) {
    let before = matches!(answer, Ok(Relation::Before));
    let after = matches!(answer, Ok(Relation::After));
    counts::add(counts, PAIRS, 1);
    counts::add_if(counts, PAIRS + 1, matches!(answer, Ok(Relation::Same)));
    counts::add_if(counts, PAIRS + 2, before);
    counts::add_if(counts, PAIRS + 3, after);
    counts::add_if(counts, PAIRS + 4, matches!(answer, Ok(Relation::Free)));
    counts::add_if(counts, PAIRS + 5, (before || after) && !direct);
    counts::add_if(counts, PAIRS + 6, !right);
}

// The answer that is due.
fn due(
    read: Result<usize, Refused>,
    before: &[bool; 64],
    first: usize,
    second: usize,
) -> Result<Relation, QueryRefusal> {
    let count = read.map_err(QueryRefusal::Log)?;
    if first < 1 || count < first || second < 1 || count < second {
        return Err(QueryRefusal::Query(Refusal::NoSuchEvent.at(0)));
    }
    if first == second {
        return Ok(Relation::Same);
    }
    if plain::at(before, first - 1, second - 1) {
        return Ok(Relation::Before);
    }
    if plain::at(before, second - 1, first - 1) {
        return Ok(Relation::After);
    }
    Ok(Relation::Free)
}

// Whether the two events are dependent, or a number is 0.
fn direct(l: Leading, first: usize, second: usize) -> bool {
    first < 1 || second < 1 || plain::dependent_places(l.events, first - 1, second - 1)
}
