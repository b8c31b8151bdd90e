// The replay of each drawn log, held to document 02, Note 1: its bytes to those that the words give, and its order to the search, which goes from the log by swaps.
ghost use Rattle.std.specs.Prelude.{◌≤◌};

use crate::grouped::SPACE;
use crate::tally::{COUNTS, REPLAYS};
use crate::{compare, grouped};
use event::refusal::{Refusal, Refused};
use plain::Leading;
use replay_log::Replayed;
use run::RunRefusal;
use session::Verdict;
use swap_search::orders::Question;
use swap_search::patterns::Sketch;
use swap_search::truth::Truth;
use swap_search::{counts, orders, truth};

// What a replay call gave, and the bytes afterwards, of which a part was lent.
#[derive(Clone, Copy)]
struct Call {
    replayed: Result<Replayed, RunRefusal>,
    buffer: [u8; SPACE],
}

// Asks for the replay with as many bytes as the log or one or two more, and again with one too few. How many were asked for and how many made, how many of these have
// their events in another order than the log, and how many were wrong in each respect.
pub(crate) fn agree(
    queue: &mut [u32],
    seen: &mut [bool],
    pattern: &[u8],
    log: &[u8],
    t: Truth,
    judged: Result<Verdict, RunRefusal>,
    counts: &mut [u64; COUNTS],
) -> bool {
    let size = log.len();
    if 60 < size {
        return false;
    }
    let read = event_log::read_log(log);
    let matched = read.is_ok() && t.present();
    let call = ask(pattern, log, size + size % 3);
    let short = ask(pattern, log, size.saturating_sub(1));
    counts::add(counts, REPLAYS, 1);
    counts::add_if(counts, REPLAYS + 1, matched);
    let answered = counts::held(counts, REPLAYS + 3, answers(call, t, read, judged));
    let written = counts::held(counts, REPLAYS + 4, writes(call, matched, log, t));
    let refused = counts::held(counts, REPLAYS + 5, refuses(short, t, read));
    let right = answered && written && refused;
    if !matched {
        return right;
    }
    shows(queue, seen, pattern, t, call, counts) && right
}

// Asks for the replay in the first `room` of 64 bytes AA.
fn ask(pattern: &[u8], log: &[u8], room: usize) -> Call
    requires { room ≤ 64 }
{
    let mut buffer = [0xAAu8; SPACE];
    let replayed = replay_log::write(pattern, log, &mut buffer[..room]);
    Call { replayed, buffer }
}

impl Call {
    // What the call says of the log.
    fn judged(self) -> Result<Verdict, RunRefusal> {
        self.replayed.map(|r| r.verdict)
    }

    // How many bytes it says that it has written.
    fn length(self) -> usize {
        self.replayed.map_or(0, |r| r.length)
    }
}

// Whether the answer is that of the run.
fn answers(
    c: Call,
    t: Truth,
    read: Result<usize, Refused>,
    run: Result<Verdict, RunRefusal>,
) -> bool {
    let judged = c.judged();
    compare::run_agrees(judged, t, read) && judged.map(|v| v.numbers) == run.map(|v| v.numbers)
}

// Whether the length and all bytes are those due on a match, or nothing is written.
fn writes(c: Call, matched: bool, log: &[u8], t: Truth) -> bool {
    if !matched {
        return unwritten(c);
    }
    let Ok(replayed) = c.replayed else {
        return false;
    };
    replayed.length == log.len() && c.buffer == grouped::bytes(log, t, replayed.verdict.numbers)
}

fn unwritten(c: Call) -> bool {
    c.length() == 0 && c.buffer == [0xAA; SPACE]
}

// Whether 15 is given at 0 where the log passes, match or none, and nothing is written.
fn refuses(c: Call, t: Truth, read: Result<usize, Refused>) -> bool {
    let due = read.and(Err(Refusal::NoRoom.at(0)));
    compare::run_agrees(c.judged(), t, due) && unwritten(c)
}

// "The outcome is reachable by swaps and holds the slots in sequence", and a run over it says match.
fn shows(
    queue: &mut [u32],
    seen: &mut [bool],
    pattern: &[u8],
    t: Truth,
    c: Call,
    counts: &mut [u64; COUNTS],
) -> bool {
    let replay = plain::read(&c.buffer);
    let q = asked(t.leading, replay);
    counts::add_if(counts, REPLAYS + 2, !orders::unswapped(q));
    let reached = counts::held(counts, REPLAYS + 6, reaches(queue, seen, q));
    let holds = counts::held(counts, REPLAYS + 7, holds(replay, t.sketch));
    let again = counts::held(counts, REPLAYS + 8, again(pattern, c));
    reached && holds && again
}

// Whether the log has an order with the replay's events one by one.
fn asked(log: Leading, replay: Leading) -> Question {
    let events = log.events;
    let slots = replay.events;
    Question {
        events,
        count: log.count,
        slots,
        size: replay.count,
    }
}

// An order that holds as many slots as it has events has nothing else.
fn reaches(queue: &mut [u32], seen: &mut [bool], q: Question) -> bool {
    let s = orders::search(queue, seen, q);
    s.holds && q.count == q.size
}

fn holds(l: Leading, k: Sketch) -> bool {
    orders::unswapped(truth::question(l, k, l.count))
}

fn again(pattern: &[u8], c: Call) -> bool {
    let Some(replay) = c.buffer.get(..c.length()) else {
        return false;
    };
    compare::matched(run::run(pattern, replay))
}
