// What the call answers, held to the reason by plain means, to a run, and to what the search says.
use crate::plainly::Reason;
use event::refusal::Refused;
use run::RunRefusal;
use session::Verdict;
use swap_search::truth::Truth;
use verdict_reason::{Cause, Reasoned};

// Whether the answer is this reason, field by field.
pub(crate) fn gives(r: Result<Reasoned, RunRefusal>, due: Reason) -> bool {
    let Ok(r) = r else {
        return false;
    };
    let same = r.events == due.events;
    match r.cause {
        None => false,
        Some(Cause::NoFit { slot }) => same && slot == due.slot && due.last.is_none(),
        Some(
            Cause::TooEarly {
                slot,
                event,
                earlier,
            },
        ) => {
            let last = due.last.is_some_and(|last| event == last as usize);
            same && slot == due.slot && last && due.earlier == Some(earlier)
        }
    }
}

// Whether the answer has no reason, and no events.
pub(crate) fn decided(r: Result<Reasoned, RunRefusal>) -> bool {
    match r {
        Ok(r) => r.cause.is_none() && r.events == [0; 5],
        Err(_) => true,
    }
}

// Whether two judgements are the same.
pub(crate) fn same(a: Result<Verdict, RunRefusal>, b: Result<Verdict, RunRefusal>) -> bool {
    match (a, b) {
        (Ok(v), Ok(w)) => v.found == w.found && v.numbers == w.numbers,
        (Err(v), Err(w)) => v == w,
        _ => false,
    }
}

// Whether a judgement is what the search says, or refuses the log as reading it does.
pub(crate) fn is_due(
    judged: Result<Verdict, RunRefusal>,
    t: Truth,
    read: Result<usize, Refused>,
) -> bool {
    match read {
        Ok(events) => {
            let due = if t.present() { t.count(events) } else { None };
            judged.is_ok_and(|verdict| verdict.found == due && due.is_some() == t.present())
        }
        Err(refused) => judged.is_err_and(|refusal| refusal == RunRefusal::Log(refused)),
    }
}

// Whether the pattern is refused.
pub(crate) fn pattern_refused(judged: Result<Verdict, RunRefusal>) -> bool {
    matches!(judged, Err(RunRefusal::Pattern(_)))
}
