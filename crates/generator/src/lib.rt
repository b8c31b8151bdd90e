// The generator of loads: the step from one state to the next, and the event in a state's bits.
#![tactic(auto)]

ghost use Rattle.std.specs.Prelude.{◌≡◌, ◌*◌, ◌%◌, ◌^◌};
ghost use Rattle.generator.specs.Rule.{next_state, height_in, event_in};

use event::{Event, Operation};

// The state after this one: the low 32 bits of 1664525 times it plus 1013904223.
pub fn step(state: u32) -> u32
    ensures { result ≡ next_state state }
{
    std::num::wrapping_add_u32(wrapping_product(1664525, state), 1013904223)
}

// The low 32 bits of a product.
// Kept: a wrapping add over a helper for the product is the form that the step is to have.
fn wrapping_product(a: u32, b: u32) -> u32
    ensures { result ≡ a * b % 2 ^ 32 }
{
    (a as u64 * b as u64 % 4294967296) as u32
}

// The event of a state: bits 31 and 30 are its thread, 29 and 28 its kind, 27 to 25 its object, and 11 to 0 give a write's height.
pub fn event_in(state: u32) -> Event
    ensures { result ≡ event_in state }
{
    let thread = (state / 1073741824 % 4) as u8;
    let kind = state / 268435456 % 4;
    let object = (state / 33554432 % 8) as u8;
    let operation = match kind {
        0 => Operation::Read { variable: object },
        1 => Operation::Write {
            variable: object,
            height: height_in(state),
        },
        _ => Operation::Mark {
            mark: object as u16,
        },
    };
    Event { thread, operation }
}

// The height in the bits of a state, in millimetres.
fn height_in(state: u32) -> i32
    ensures { result ≡ height_in state }
{
    (state % 4096) as i32 - 2048
}
