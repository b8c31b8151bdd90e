// Whole patterns: how many slots, or the refusal; the slots that are kept.
use crate::commands;
use event::refusal::Refused;
use event::{SLOTS, Slot, SlotOperation};
use event_log::Pattern;

pub(crate) fn read(bytes: &[u8]) {
    show(event_log::read_pattern(bytes));
}

fn show(read: Result<Pattern, Refused>) {
    match read {
        Ok(pattern) => {
            console::number(pattern.size as u64);
            console::text(b" slots");
        }
        Err(refused) => console::pattern_refused(refused),
    }
}

// The answer, and the pattern: its size and its five places, which after a refusal are none.
pub(crate) fn kept(bytes: &[u8]) {
    let read = event_log::read_pattern(bytes);
    show(read);
    let pattern = read.unwrap_or(nothing());
    console::numbered(b", size ", pattern.size as u64);
    for slot in pattern.slots {
        console::text(b"; ");
        commands::show_slot(slot);
    }
}

fn nothing() -> Pattern {
    Pattern {
        slots: [Slot {
            thread: 0,
            operation: SlotOperation::Mark { mark: 0 },
        }; SLOTS],
        size: 0,
    }
}
