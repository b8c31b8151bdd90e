// The functions of bilguzor that programs in C and Rust call, each under the name of its own in C: a static library of its own, since no crate is built both
// as a library and as a static library. Each export calls the library's function and promises what that promises.
#![tactic(auto)]

ghost use Rattle.std.specs.Prelude.{◌≡◌, List, []};
ghost use Rattle.event.specs.declared.Event.{Event};
ghost use Rattle.event.specs.declared.Slot.{Slot};
ghost use Rattle.event_log.specs.Whole.{read_pattern};
ghost use Rattle.session.specs.Answers.{nothing, refusal};
ghost use Rattle.session.specs.Model.{slots_used};
ghost use Rattle.session.specs.Meaning.{VerdictOf};
ghost use Rattle.event_numbers.specs.EventNumbers.{handed_over};
ghost use Rattle.bilguzor.specs.declared.Parts.{Parts};
ghost use Rattle.bilguzor.specs.Numbers.{version, judgement_of, RunNumbers, ReasonNumbers, ReplayNumbers, OrderNumbers};
ghost use Rattle.bilguzor.specs.Parts.{lent};
ghost use Rattle.bilguzor.specs.Sessions.{InParts, opening_of, Takes, ruling_in};

use bilguzor::{Answer, Judgement, Opening, Ordering, Reasoned, Replayed};
use session::Session;

// The version of this library, to be compared with the header's.
#[unsafe(no_mangle)]
pub extern "C" fn bilguzor_version() -> u32
    ensures { result ≡ version }
{
    bilguzor::bilguzor_version()
}

// Judges a whole log by a pattern.
#[unsafe(no_mangle)]
pub extern "C" fn bilguzor_run(pattern: &[u8], log: &[u8]) -> Judgement
    ensures { RunNumbers pattern.now log.now result }
{
    bilguzor::bilguzor_run(pattern, log)
}

// Judges a whole log by a pattern, and says why where there is no match.
#[unsafe(no_mangle)]
pub extern "C" fn bilguzor_reason(pattern: &[u8], log: &[u8]) -> Reasoned
    ensures { ReasonNumbers pattern.now log.now result }
{
    bilguzor::bilguzor_reason(pattern, log)
}

// Judges a whole log by a pattern. On a match the log that shows it is written at the start of the lent buffer, and in every other case the buffer stays
// as it was.
#[unsafe(no_mangle)]
pub extern "C" fn bilguzor_replay(pattern: &[u8], log: &[u8], buffer: &mut [u8]) -> Replayed
    ensures { ReplayNumbers pattern.now log.now buffer.old result buffer.new }
{
    bilguzor::bilguzor_replay(pattern, log, buffer)
}

// How event number `first` of the log stands to event number `second`.
#[unsafe(no_mangle)]
pub extern "C" fn bilguzor_order(log: &[u8], first: usize, second: usize) -> Ordering
    ensures { OrderNumbers log.now first second result }
{
    bilguzor::bilguzor_order(log, first, second)
}

// Opens a session on a pattern.
#[unsafe(no_mangle)]
pub extern "C" fn bilguzor_open(pattern: &[u8]) -> Opening
    ensures exact { result ≡ opening_of pattern.now }
    ensures history { InParts (slots_used (read_pattern pattern.now)) [] result.session }
{
    bilguzor::bilguzor_open(pattern)
}

// Hands one event in numbers to the session whose parts are lent. A refused one leaves them as they were.
#[unsafe(no_mangle)]
pub extern "C" fn bilguzor_take(
    slots: &[u32; Session::SLOTS],
    size: u32,
    clocks: &mut [u16; clock::CLOCKS],
    table: &mut [u16; table::TABLE],
    taken: &mut u16,
    count: &mut u16,
    state: &mut [u8; rules::STATE],
    thread: u32,
    operation: u32,
    object: u32,
    height: i32,
) -> Answer
    ensures { Takes (lent slots.now size state.old clocks.old table.old taken.old count.old) (handed_over thread operation object height) result (lent slots.now size state.new clocks.new table.new taken.new count.new) }
{
    bilguzor::bilguzor_take(
        slots, size, clocks, table, taken, count, state, thread, operation, object, height,
    )
}

// What the session whose parts are lent has found in the events taken so far.
#[unsafe(no_mangle)]
pub extern "C" fn bilguzor_verdict(size: u32, table: &[u16; table::TABLE], count: u16) -> Judgement
    ensures exact { result ≡ judgement_of (record { refused = nothing; refusal = refusal 0 0; ruling = ruling_in table.now count size }) }
    ensures history { (ss : List Slot) (es : List Event) (p : Parts) → InParts ss es p → p.table ≡ table.now → p.count ≡ count → p.size ≡ size → VerdictOf ss es (ruling_in table.now count size) }
{
    bilguzor::bilguzor_verdict(size, table, count)
}
