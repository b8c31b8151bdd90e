// Why a log has no match: what a run says of it, and the first slot that can't be filled, with what stands in its way.
#![tactic(auto)]

ghost use Rattle.std.specs.Prelude.{◌≡◌, List, ◌≤◌, ◌<◌};
ghost use Rattle.event.specs.Limits.{slots as slot_limit};
ghost use Rattle.event.specs.declared.Event.{Event};
ghost use Rattle.trace.proofs.Counts.{Lowest};
ghost use Rattle.passes.specs.Passes.{Leads};
ghost use Rattle.run.specs.Answers.{judged_is};
ghost use Rattle.verdict_reason.specs.Reasons.{ReasonOf, run_part, cause_part, events_part};
ghost use Rattle.verdict_reason.specs.Causes.{Stopped, Causes, counts_at};

use clock::Stamp;
use event::Slot;
use run::RunRefusal;
use session::Verdict;

// What keeps a log from a match.
#[derive(Clone, Copy)]
pub enum Cause {
    // No event fits this slot.
    NoFit {
        slot: usize,
    },
    // The last event that fits this slot comes before the event of an earlier one, or is it.
    TooEarly {
        slot: usize,
        event: usize,
        earlier: usize,
    },
}

// The verdict of a run; and where that is no match, why, with the events of the slots before the one that can't be filled, and 0 at the other places.
#[derive(Clone, Copy)]
pub struct Reasoned {
    pub verdict: Verdict,
    pub cause: Option<Cause>,
    pub events: [u16; event::SLOTS],
}

// Judges a whole log by a pattern, and says why where there is no match.
pub fn reason(pattern: &[u8], log: &[u8]) -> Result<Reasoned, RunRefusal>
    ensures { ReasonOf pattern.now log.now (judged_is (run_part result)) (cause_part result) (events_part result) }
{
    let p = event_log::read_pattern(pattern).map_err(|refused| RunRefusal::Pattern(refused))?;
    let searched = slot_search::search(p, log).map_err(|refused| RunRefusal::Log(refused))?;
    let s = searched.search;
    let verdict = run::verdict_after(p.size, s);
    let k = s.found;
    if k == p.size {
        return Ok(Reasoned {
            verdict,
            cause: None,
            events: [0; event::SLOTS],
        });
    }
    let events = s.numbers;
    let cause = cause_of(log, searched.events, p.slots[k], k, events);
    Ok(Reasoned {
        verdict,
        cause: Some(cause),
        events,
    })
}

// Why a slot, k others being before it, can't be filled by one of the n events of a log: one pass finds the last that fits it, and one stamps the events of
// the slots before it.
fn cause_of(log: &[u8], n: usize, slot: Slot, k: usize, numbers: [u16; event::SLOTS]) -> Cause
    requires { k < slot_limit }
    ensures { (es : List Event) → Leads log.now es n → Stopped es slot k numbers → Causes es slot k numbers result }
{
    let Some(last) = last_fit::last_fit(log, n, slot) else {
        return Cause::NoFit { slot: k + 1 };
    };
    let stamps = event_stamps::stamps_of(log, run::greatest(numbers) as usize, numbers);
    Cause::TooEarly {
        slot: k + 1,
        event: last.number,
        earlier: lowest(stamps, slot.thread, last.place, k),
    }
}

// The first of k stamps that counts so many events of a thread, from 1; 0 where none does.
// Kept: in the one call there always is one, and `Lowest`, the definition that the count of a run goes by too, has 0 for none.
fn lowest(stamps: [Stamp; event::SLOTS], thread: u8, place: u16, k: usize) -> usize
    requires { k ≤ slot_limit }
    ensures { Lowest (counts_at stamps thread place) k result }
{
    for j in 0..k {
        let stamp = stamps[j];
        if place <= clock::count_of(thread, stamp) {
            return j + 1;
        }
    }
    0
}
