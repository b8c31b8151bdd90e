// The slots of a pattern together: which of them an event fits and whether it is none, their threads, their numbers and their keys.
#![tactic(auto)]

ghost use Rattle.std.specs.Prelude.{◌≡◌, ◌↔◌, true};
ghost use Rattle.event.specs.Slots.{fitting, threads_of, NoneFitted};
ghost use Rattle.event.specs.Keys.{slot_number, slot_numbers, slot_key, slot_keys};

use event::{Event, SLOTS, Slot};

// Which slots of a pattern the event fits.
#[tactic(auto, unfolding(event::specs::Slots::fitting))]
pub fn fitting(slots: [Slot; SLOTS], e: Event) -> [bool; SLOTS]
    ensures { result ≡ fitting slots e }
{
    slots.map(|s| event::fit(s, e))
}

// Whether the event fits none of a pattern's slots, by which of its places it fits and how many of them are slots.
pub fn none_fitted(fit: [bool; SLOTS], size: usize) -> bool
    ensures { (result ≡ true) ↔ NoneFitted size fit }
{
    !fit.iter().take(size).any(|fits| *fits)
}

// The thread of each slot of a pattern.
#[tactic(auto, unfolding(event::specs::Slots::threads_of))]
pub fn threads_of(slots: [Slot; SLOTS]) -> [u8; SLOTS]
    ensures { result ≡ threads_of slots }
{
    slots.map(|s| s.thread)
}

// Operation, thread and object of a slot in one number.
pub fn number_of(s: Slot) -> u32
    ensures { result ≡ slot_number s }
{
    let op = s.operation;
    let byte = event::byte_of(op);
    let object = event::object_of(op);
    byte as u32 + 256 * (s.thread as u32) + 65536 * (object as u32)
}

// The number of each slot of a pattern.
#[tactic(auto, unfolding(event::specs::Keys::slot_numbers))]
pub fn numbers_of(slots: [Slot; SLOTS]) -> [u32; SLOTS]
    ensures { result ≡ slot_numbers slots }
{
    slots.map(number_of)
}

// The thread of a slot and the low byte of its object: an event that fits the slot has the same.
pub fn key_of(s: Slot) -> u16
    ensures { result ≡ slot_key s }
{
    let op = s.operation;
    let object = event::object_of(op);
    s.thread as u16 + 256 * (object % 256)
}

// The key of each slot of a pattern.
#[tactic(auto, unfolding(event::specs::Keys::slot_keys))]
pub fn keys_of(slots: [Slot; SLOTS]) -> [u16; SLOTS]
    ensures { result ≡ slot_keys slots }
{
    slots.map(key_of)
}
