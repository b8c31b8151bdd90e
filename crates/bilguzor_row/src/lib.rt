// The function that programs in C and Rust call with a row of sessions in parts: a library of its own, so that the others are compiled as if it were not there.
#![tactic(auto)]

ghost use Rattle.std.specs.Prelude.{◌≡◌};
ghost use Rattle.event.specs.Refusals.{number_given};
ghost use Rattle.session_row.specs.Row.{RowTaken, row_answer_is};
ghost use Rattle.bilguzor_row.specs.Rows.{handed_numbers, alone_in, report_is};

use bilguzor::Parts;
use event::refusal::Refusal;
use session_row::RowRefusal;

// Kept: the C interface gives and takes numbers.
// An event in numbers, whatever they are.
#[repr(C)]
#[derive(Clone, Copy)]
pub struct EventNumbers {
    pub thread: u32,
    pub operation: u32,
    pub object: u32,
    pub height: i32,
}

// What became of an event in a row: how many sessions refused it, the lowest place, from 1, that did, and the number of its refusal; or 18 where the row
// is too long.
#[repr(C)]
#[derive(Clone, Copy)]
pub struct RowReport {
    pub number: u8,
    pub offset: usize,
    pub count: usize,
    pub place: usize,
}

// Hands one event in numbers to each session of a lent row, in row order. One that refuses stays as it was, and the others go on.
#[unsafe(no_mangle)]
pub extern "C" fn bilguzor_take_all(row: &mut [Parts], e: EventNumbers) -> RowReport
    ensures { RowTaken (alone_in (handed_numbers e)) row.old (report_is result) row.new }
{
    let answer = session_row::each_in_turn(row, |p| hand(p, e));
    report_of(answer)
}

// What taking one event makes of a session in parts.
// Kept: the parts one by one, as with a changed copy of them all a call takes 1.6 times the time.
fn hand(p: Parts, e: EventNumbers) -> (Result<(), Refusal>, Parts)
    ensures { (number_given result.0 ≡ (alone_in (handed_numbers e) p).number) × (result.1 ≡ (alone_in (handed_numbers e) p).after) }
{
    let slots = p.slots;
    let mut clocks = p.clocks;
    let mut table = p.table;
    let mut state = p.state;
    let mut taken = p.taken;
    let mut count = p.count;
    let given = bilguzor::take_in_parts(
        &slots,
        p.size,
        &mut clocks,
        &mut table,
        &mut taken,
        &mut count,
        &mut state,
        e.thread,
        e.operation,
        e.object,
        e.height,
    );
    let session = Parts {
        slots,
        size: p.size,
        clocks,
        table,
        taken,
        count,
        state,
    };
    (given, session)
}

fn report_of(answer: Result<(), RowRefusal>) -> RowReport
    ensures { report_is result ≡ row_answer_is answer }
{
    let (number, count, place) = match answer {
        Ok(()) => (0, 0, 0),
        Err(RowRefusal::TooLong) => (Refusal::RowTooLong.number(), 0, 0),
        Err(RowRefusal::Refused(refused)) => {
            (refused.reason.number(), refused.count, refused.place)
        }
    };
    RowReport {
        number,
        offset: 0,
        count,
        place,
    }
}
