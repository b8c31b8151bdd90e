// An event in plain numbers, as programs in C hand it over, and slots in numbers: which of them have an event's number.
#![tactic(auto)]

ghost use Rattle.std.specs.Prelude.{◌≡◌, ◌↔◌, true, ℕ, ◌≤◌, ◌<◌, get_or};
ghost use Rattle.event.specs.Limits.{slots as slot_limit};
ghost use Rattle.event.specs.Refusals.{number_given};
ghost use Rattle.command.specs.Reading.{operation_of};
ghost use Rattle.event_numbers.specs.EventNumbers.{handed_over, event_from, Narrow, unfit_by};
ghost use Rattle.event_numbers.specs.SlotNumbers.{acting_in, fitting_in};

use event::refusal::Refusal;
use event::{Event, Operation, SLOTS};

const THREADS: u32 = event::THREADS as u32;

// What a mark, and what any other object, stays below in an event.
const MARKS: u32 = 65536;

const BYTES: u32 = 256;

// Whether none of the slots has this number; where there are more than a pattern has, no.
pub fn none_in(slots: &[u32; SLOTS], size: u32, n: u32) -> bool
    ensures { (result ≡ true) ↔ ((size ≤ slot_limit) × ((j : ℕ) → j < size → get_or slots.now j 0 ≡ n → ⊥)) }
{
    size as usize <= SLOTS && !slots.iter().take(size as usize).any(|slot| *slot == n)
}

// The thread in the number of each slot.
#[tactic(auto, unfolding(crate::specs::SlotNumbers::acting_in))]
pub fn threads_in(slots: [u32; SLOTS]) -> [u8; SLOTS]
    ensures { result ≡ acting_in slots }
{
    slots.map(|slot| (slot / 256 % 256) as u8)
}

// Which slots have this number.
#[tactic(auto, unfolding(crate::specs::SlotNumbers::fitting_in))]
pub fn fitting_in(slots: [u32; SLOTS], n: u32) -> [bool; SLOTS]
    ensures { result ≡ fitting_in slots n }
{
    slots.map(|slot| slot == n)
}

// Refused with 3, 5 or 6 where no event can hold the numbers.
pub fn unfit(thread: u32, operation: u32, object: u32) -> Result<(), Refusal>
    ensures { number_given result ≡ unfit_by thread operation object }
{
    if operation == 0 || 7 < operation {
        return Err(Refusal::UnknownByte);
    }
    if thread >= THREADS {
        return Err(Refusal::ThreadAboveLimit);
    }
    let limit = if operation == 7 { MARKS } else { BYTES };
    if object >= limit {
        return Err(Refusal::ObjectAboveLimit);
    }
    Ok(())
}

// The event of the numbers, each as wide as an event holds it.
pub fn event_of(thread: u8, operation: u8, object: u16, height: i32) -> Event
    requires { Narrow operation object }
    ensures { result ≡ event_from (handed_over thread operation object height) }
{
    let op = operation_of(operation, object, height);
    Event {
        thread,
        operation: op,
    }
}

fn operation_of(b: u8, object: u16, height: i32) -> Operation
    requires { Narrow b object }
    ensures { result ≡ operation_of b object height }
{
    let o = (object % 256) as u8;
    match b {
        1 => Operation::Read { variable: o },
        2 => Operation::Write {
            variable: o,
            height,
        },
        3 => Operation::Acquire { lock: o },
        4 => Operation::Release { lock: o },
        5 => Operation::Fork { child: o },
        6 => Operation::Join { child: o },
        _ => Operation::Mark { mark: object },
    }
}
