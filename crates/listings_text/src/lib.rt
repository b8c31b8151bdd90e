// Many patterns and one log, gone through once: a line for each pattern, as text in a lent buffer.
#![tactic(auto)]

ghost use Rattle.std.specs.Prelude.{◌≡◌, List, ◌∷◌, [], ◌++◌, suc, ◌<◌, ◌≤◌, length};
ghost use Rattle.page.specs.Page.{room, empty_page, onto, Adds, PutIn};
ghost use Rattle.event.specs.Refusals.{refusal_number};
ghost use Rattle.session.specs.Model.{verdict_of};
ghost use Rattle.session_row.specs.Row.{most};
ghost use Rattle.listings_text.specs.Listings.{File, holds, Listings};
ghost use Rattle.listings_text.specs.Lines.{name_text, found_of, found_line, end_line, refused_line, line_of, line_width, end_width, lines_before};
ghost use Rattle.listings_text.specs.Watched.{WatchedOf};

use event::refusal::Refused;
use page::Page;
use row_pass::FileFault;
use session::Session;
use session_row::PLACES;

// How many pattern files there may be.
pub const FILES: usize = session_row::MOST;

// What was found of a pattern file before the log: none where it can't be opened; else its pattern is looked for, or why not.
pub type Finding = Option<Result<(), FileFault>>;

// What is known of each pattern file: what was found of it, and the session on its pattern. Those from `used` on are looked for by none.
// Kept: two arrays, since the sessions are lent as one row, and a batch of events is handed to a row of sessions alone.
#[derive(Clone, Copy)]
pub struct Watched {
    pub entries: [Finding; FILES],
    pub sessions: [Session; PLACES],
    pub used: usize,
}

// Before any file.
pub fn nothing() -> Watched
    ensures { WatchedOf [] result }
{
    Watched {
        entries: [None; FILES],
        sessions: [Session::open(b"").session; PLACES],
        used: 0,
    }
}

// Kept: a number below 16 is asked for, as each caller has it from its loop; a type for it would be made and taken apart at each call.
// A file that was opened, the one after those before it: its pattern is what was read of it.
pub fn add(mut w: Watched, k: usize, pattern: &[u8]) -> Watched
    requires { k < most }
    ensures { (files : List File) → WatchedOf files w → length files ≡ k → WatchedOf (files ++ (holds pattern.now ∷ [])) result }
{
    let opened = Session::open(pattern);
    w.entries[k] = Some(found_of(pattern.len(), opened.answer));
    w.sessions[k] = opened.session;
    w.used = k + 1;
    w
}

fn found_of(size: usize, answer: Result<usize, Refused>) -> Result<(), FileFault>
    ensures { result ≡ found_of size answer }
{
    if page::LONGEST < size {
        return Err(FileFault::TooLong);
    }
    match answer {
        Ok(_) => Ok(()),
        Err(refused) => Err(FileFault::Refused(refused)),
    }
}

// Writes the lines of the pattern files and a log at the start of a lent buffer.
#[tactic(auto, using(page::proofs::PutIn::put_in))]
pub fn write(w: Watched, log: &[u8], buffer: &mut [u8]) -> Result<usize, Refused>
    ensures { (files : List File) → WatchedOf files w → length files ≡ most → PutIn (Listings files log.now) buffer.old buffer.new result }
{
    listings(w, log).put(buffer)
}

fn listings(w: Watched, log: &[u8]) -> Page
    ensures { (files : List File) → WatchedOf files w → length files ≡ most → Adds (Listings files log.now) empty_page result }
{
    if page::LONGEST < log.len() {
        return lines(w.entries, w.sessions, Err(FileFault::TooLong));
    }
    let passed = row_pass::pass(w.sessions, w.used.min(FILES), log);
    lines(w.entries, passed.sessions, passed.end)
}

// The lines of all files.
fn lines(entries: [Finding; FILES], sessions: [Session; PLACES], end: Result<(), FileFault>) -> Page
    ensures text { result ≡ onto empty_page (lines_before end entries sessions most) }
    ensures short { length (lines_before end entries sessions most) ≤ room }
{
    let mut p = page::empty();
    for k in 0..FILES {
        p = line(p, k, entries[k], sessions[k], end);
    }
    p
}

// The line of a file; none where it can't be opened.
#[tactic(auto, using(page::proofs::Onto::onto_append, page::proofs::Onto::onto_none))]
fn line(p: Page, k: usize, finding: Finding, s: Session, end: Result<(), FileFault>) -> Page
    requires { k < most }
    ensures text { result ≡ onto p (line_of end (suc k) finding s) }
    ensures short { length (line_of end (suc k) finding s) ≤ line_width }
{
    match finding {
        None => p,
        Some(Ok(())) => sought(named(p, k), s, end),
        Some(Err(FileFault::TooLong)) => named(p, k).too_long(),
        Some(Err(FileFault::Refused(refused))) => pattern_refused(named(p, k), refused, end),
    }
}

// The name of the file, a colon and a space.
fn named(p: Page, k: usize) -> Page
    requires { k < most }
    ensures { result ≡ onto p (name_text (suc k)) }
{
    let n = k as u8 + 1;
    let q = p.text(b"pattern").byte(48 + n / 10);
    q.byte(48 + n % 10).text(b": ")
}

// What is said of a refused pattern; a log that is too long goes before.
#[tactic(auto, using(page::proofs::Onto::onto_append, crate::proofs::Widths::pattern_refusal))]
fn pattern_refused(p: Page, refused: Refused, end: Result<(), FileFault>) -> Page
    ensures text { result ≡ onto p (refused_line end (refusal_number refused.reason) refused.offset) }
    ensures short { length (refused_line end (refusal_number refused.reason) refused.offset) ≤ end_width }
{
    match end {
        Err(FileFault::TooLong) => p.too_long(),
        _ => p.text(b"pattern ").refused(refused),
    }
}

// What is said of a pattern that was looked for.
#[tactic(auto, using(crate::proofs::Widths::found, page::proofs::Lengths::refusal))]
fn sought(p: Page, s: Session, end: Result<(), FileFault>) -> Page
    ensures text { result ≡ onto p (end_line end s) }
    ensures short { length (end_line end s) ≤ end_width }
{
    match end {
        Ok(()) => found_line(p, s),
        Err(FileFault::TooLong) => p.too_long(),
        Err(FileFault::Refused(refused)) => p.refused(refused),
    }
}

fn found_line(p: Page, s: Session) -> Page
    ensures { result ≡ onto p (found_line (verdict_of s).found) }
{
    match s.verdict().found {
        Some(count) => listing_text::match_line(p, count),
        None => p.text(&listing_text::NO_MATCH),
    }
}
