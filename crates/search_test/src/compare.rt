// A run and a session held to what the search found.
use event::refusal::Refused;
use run::RunRefusal;
use session::{Session, Verdict};
use swap_search::lists;
use swap_search::truth::Truth;

// Whether the run says what the search says, or refuses the log as reading it does.
pub(crate) fn run_agrees(
    judged: Result<Verdict, RunRefusal>,
    t: Truth,
    read: Result<usize, Refused>,
) -> bool {
    match judged {
        Ok(verdict) => read.is_ok() && verdict_agrees(t, t.leading.count, verdict),
        Err(RunRefusal::Log(refused)) => read == Err(refused),
        Err(RunRefusal::Pattern(_)) => false,
    }
}

// Whether a session says after each event what the search says of the events so far. Events are handed over up to the first that is refused.
pub(crate) fn session_agrees(
    pattern: &[u8],
    log: &[u8],
    t: Truth,
    read: Result<usize, Refused>,
) -> bool {
    let opened = Session::open(pattern);
    if opened.answer != Ok(t.sketch.size) {
        return false;
    }
    let mut s = opened.session;
    let mut at: usize = 0;
    for n in 0..plain::MOST {
        if !verdict_agrees(t, n, s.verdict()) {
            return false;
        }
        let Ok(Some((event, next))) = command::read_event(log, at) else {
            return n == t.leading.count;
        };
        let h = s.take(event);
        s = h.session;
        if let Err(refused) = h.answer {
            return refusal_agrees(refused, read, at) && verdict_agrees(t, n, s.verdict());
        }
        at = next;
    }
    false
}

// Whether the run found a match.
pub(crate) fn matched(judged: Result<Verdict, RunRefusal>) -> bool {
    judged.is_ok_and(|verdict| verdict.found.is_some())
}

// Whether an event is refused for the reason and at the place that the log is.
fn refusal_agrees(refused: Refused, read: Result<usize, Refused>, at: usize) -> bool {
    refused.offset == 0 && read == Err(refused.reason.at(at))
}

// Whether the verdict is that of the leading n events.
fn verdict_agrees(t: Truth, n: usize, v: Verdict) -> bool {
    v.found == t.count(n) && numbers_agree(t, v)
}

fn numbers_agree(t: Truth, v: Verdict) -> bool {
    let size = t.sketch.size;
    match v.found {
        Some(count) => zeros(v.numbers, size) && lists::satisfies(t, size, count, v.numbers),
        None => zeros(v.numbers, 0),
    }
}

// Whether the numbers are 0 from a place on.
fn zeros(numbers: [u16; 5], from: usize) -> bool {
    lists::same_from(numbers, [0; 5], from)
}
