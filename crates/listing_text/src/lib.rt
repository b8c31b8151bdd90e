// The listing: a pattern and a log judged, and the verdict as text in a lent buffer.
#![tactic(auto)]

ghost use Rattle.std.specs.Prelude.{◌≡◌, ◌≤◌, cond, [], length};
ghost use Rattle.page.specs.Text.{ascii};
ghost use Rattle.page.specs.Page.{empty_page, onto, room, Adds};
ghost use Rattle.listing_text.specs.Text.{metres_text, height_text, operation_text, slot_text, slot_line, match_line};
ghost use Rattle.listing_text.specs.OutcomeText.{lines_of, found_text, text_of};
ghost use Rattle.listing_text.specs.Listing.{Listing, ListedIn};

use event::refusal::Refused;
use event::{Event, Operation};
use height::Metres;
use page::Page;
use run::RunRefusal;
use session::Verdict;

pub const NO_MATCH: [u8; 9] = *b"no match\n";

// Writes the listing of a pattern and a log at the start of a lent buffer.
#[tactic(auto, using(page::proofs::PutIn::put_in))]
pub fn write(pattern: &[u8], log: &[u8], buffer: &mut [u8]) -> Result<usize, Refused>
    ensures { ListedIn pattern.now log.now buffer.old buffer.new result }
{
    listing(pattern, log).put(buffer)
}

fn listing(pattern: &[u8], log: &[u8]) -> Page
    ensures { Adds (Listing pattern.now log.now) empty_page result }
{
    let p = page::empty();
    if page::LONGEST < pattern.len() {
        return p.too_long();
    }
    if page::LONGEST < log.len() {
        return p.too_long();
    }
    let judged = run::run(pattern, log);
    verdict(p, judged, log)
}

// What a run said.
#[tactic(auto, using(page::proofs::Onto::onto_append, crate::proofs::Lengths::refused_fits, crate::proofs::Lengths::pattern_refused_fits))]
pub fn verdict(p: Page, judged: Result<Verdict, RunRefusal>, log: &[u8]) -> Page
    ensures text { result ≡ onto p (text_of log.now judged) }
    ensures short { length (text_of log.now judged) ≤ room }
{
    match judged {
        Ok(verdict) => found(p, verdict, log),
        Err(RunRefusal::Pattern(refused)) => p.text(b"pattern ").refused(refused),
        Err(RunRefusal::Log(refused)) => p.refused(refused),
    }
}

#[tactic(auto, using(page::proofs::Onto::onto_append, crate::proofs::Lengths::found_fits))]
fn found(p: Page, verdict: Verdict, log: &[u8]) -> Page
    ensures text { result ≡ onto p (found_text log.now verdict.found verdict.numbers) }
    ensures short { length (found_text log.now verdict.found verdict.numbers) ≤ room }
{
    match verdict.found {
        Some(count) => slot_lines(match_line(p, count), log, verdict.numbers),
        None => p.text(&NO_MATCH),
    }
}

#[tactic(auto, using(page::proofs::Onto::onto_append))]
pub fn match_line(p: Page, count: usize) -> Page
    ensures { result ≡ onto p (match_line count) }
{
    p.word(b"match at ", count).text(b"\n")
}

// The lines of the slots: the event of each number, from the log. A number 0 stands beyond the last slot.
pub fn slot_lines(from: Page, log: &[u8], numbers: [u16; event::SLOTS]) -> Page
    ensures { result ≡ onto from (lines_of log.now 1 numbers) }
{
    let mut p = from;
    for j in 0..event::SLOTS {
        let n = numbers[j];
        if n == 0 {
            return p;
        }
        let e = event_log::event_numbered(log, n as usize);
        p = slot_line(p, j + 1, n as usize, e);
    }
    p
}

#[tactic(auto, using(page::proofs::Onto::onto_append))]
fn slot_line(p: Page, slot: usize, n: usize, e: Event) -> Page
    ensures { result ≡ onto p (slot_line slot n e) }
{
    slot_text(p, slot, n, e).text(b"\n")
}

// A slot's line without its line feed.
#[tactic(auto, using(page::proofs::Onto::onto_append))]
pub fn slot_text(p: Page, slot: usize, n: usize, e: Event) -> Page
    ensures { result ≡ onto p (slot_text slot n e) }
{
    let q = p
        .number(slot)
        .word(b" event ", n)
        .word(b" thread ", e.thread as usize)
        .text(b" ");
    operation_text(q, e.operation)
}

#[tactic(auto, using(page::proofs::Onto::onto_append))]
fn operation_text(p: Page, op: Operation) -> Page
    ensures { result ≡ onto p (operation_text op) }
{
    match op {
        Operation::Read { variable } => p.word(b"read ", variable as usize),
        Operation::Write { variable, height } => height_text(
            p.word(b"write ", variable as usize).text(b" "),
            height,
        ),
        Operation::Acquire { lock } => p.word(b"acquire ", lock as usize),
        Operation::Release { lock } => p.word(b"release ", lock as usize),
        Operation::Fork { child } => p.word(b"fork ", child as usize),
        Operation::Join { child } => p.word(b"join ", child as usize),
        Operation::Mark { mark } => p.word(b"mark ", mark as usize),
    }
}

#[tactic(auto, unfolding(crate::specs::Text::height_text), using(height::proofs::Tenths::held_is))]
fn height_text(p: Page, mm: i32) -> Page
    ensures { result ≡ onto p (height_text mm) }
{
    metres_text(p, height::in_metres(mm))
}

#[tactic(auto, using(page::proofs::Onto::onto_append))]
fn metres_text(p: Page, m: Metres) -> Page
    ensures { result ≡ onto p (metres_text m) }
{
    sign(p, m.below)
        .number(m.whole as usize)
        .text(b".")
        .number(m.tenth as usize)
}

#[tactic(auto, using(page::proofs::Onto::onto_none))]
fn sign(p: Page, below: bool) -> Page
    ensures { result ≡ onto p (cond below (ascii "-") []) }
{
    if below { p.text(b"-") } else { p }
}
