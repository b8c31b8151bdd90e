// What the program `reason` prints, as text in a lent buffer: the listing, and under `no match` why there is none.
#![tactic(auto)]

ghost use Rattle.std.specs.Prelude.{◌≡◌, length, Some};
ghost use Rattle.event.specs.Limits.{slots};
ghost use Rattle.page.specs.Page.{empty_page, onto, Adds, PutIn};
ghost use Rattle.reason_text.specs.CauseText.{slot_event, way_text, cause_text, reasoned_text};
ghost use Rattle.reason_text.specs.ReasonText.{ReasonText};

use event::refusal::Refused;
use page::Page;
use verdict_reason::{Cause, Reasoned};

// Writes what is printed for a pattern and a log at the start of a lent buffer.
pub fn write(pattern: &[u8], log: &[u8], buffer: &mut [u8]) -> Result<usize, Refused>
    ensures { PutIn (ReasonText pattern.now log.now) buffer.old buffer.new result }
{
    reasoned(pattern, log).put(buffer)
}

fn reasoned(pattern: &[u8], log: &[u8]) -> Page
    ensures { Adds (ReasonText pattern.now log.now) empty_page result }
{
    let p = page::empty();
    if page::LONGEST < pattern.len() {
        return p.too_long();
    }
    if page::LONGEST < log.len() {
        return p.too_long();
    }
    match verdict_reason::reason(pattern, log) {
        Ok(reasoned) => lines(p, log, reasoned),
        Err(refusal) => listing_text::verdict(p, Err(refusal), log),
    }
}

// What a run said, then the lines of the slots before the one that can't be filled, and its own.
#[tactic(auto, using(page::proofs::Onto::onto_append, page::proofs::Onto::onto_none))]
fn lines(p: Page, log: &[u8], r: Reasoned) -> Page
    ensures text { result ≡ onto p (reasoned_text log.now r.verdict r.cause r.events) }
    ensures places { length r.verdict.numbers ≡ slots }
{
    let verdict = listing_text::verdict(p, Ok(r.verdict), log);
    let earlier = listing_text::slot_lines(verdict, log, r.events);
    cause_line(earlier, log, r.cause, r.events)
}

// The line of the slot that can't be filled; none with a match.
#[tactic(auto, using(page::proofs::Onto::onto_none))]
fn cause_line(p: Page, log: &[u8], cause: Option<Cause>, events: [u16; event::SLOTS]) -> Page
    ensures { result ≡ onto p (cause_text log.now cause events) }
{
    match cause {
        Some(cause) => way(p, log, cause, events),
        None => p,
    }
}

// What stands in the way of the slot.
fn way(p: Page, log: &[u8], cause: Cause, events: [u16; event::SLOTS]) -> Page
    ensures { result ≡ onto p (cause_text log.now (Some cause) events) }
{
    match cause {
        Cause::NoFit { slot } => p.number(slot).text(b" no event fits\n"),
        Cause::TooEarly {
            slot,
            event,
            earlier,
        } => {
            let e = event_log::event_numbered(log, event);
            let q = listing_text::slot_text(p, slot, event, e);
            way_line(q, event == slot_event(events, earlier), earlier)
        }
    }
}

// How the event stands to that of an earlier slot: it is the same, or comes before it.
#[tactic(auto, using(page::proofs::Onto::onto_append, page::proofs::Onto::onto_none))]
fn way_line(p: Page, same: bool, earlier: usize) -> Page
    ensures { result ≡ onto p (way_text same earlier) }
{
    if same {
        return p.word(b" is slot ", earlier).text(b"'s event\n");
    }
    p.word(b" comes before slot ", earlier).text(b"\n")
}

// The event of a slot, counted from 1; 0 where there is no such slot.
// Kept: the text of a cause is defined for every number of a slot, by 0 where there is none; an Option would be taken apart into that 0 at the one call.
fn slot_event(events: [u16; event::SLOTS], i: usize) -> usize
    ensures { result ≡ slot_event events i }
{
    if i == 0 {
        return 0;
    }
    if event::SLOTS < i {
        return 0;
    }
    events[i - 1] as usize
}
