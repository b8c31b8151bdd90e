// Which events of a log are dependent, and what vector clocks go by: definitions in specs/, their laws in proofs/; and dependence decided.
#![tactic(auto)]

ghost use Rattle.std.specs.Prelude.{◌≡◌, ◌&&◌, ◌||◌, eqb, Some};
ghost use Rattle.dependence.specs.Dependence.{variable, lock, named, is_write, same, dependent};

use event::{Event, Touch};

// Whether the two events are dependent, by document 01's list.
#[tactic(auto, unfolding(crate::specs::Dependence::dependent))]
pub fn depend(a: Event, b: Event) -> bool
    ensures { result ≡ dependent a b }
{
    let p = a.operation;
    let q = b.operation;
    let x = event::touch_of(p);
    let y = event::touch_of(q);
    touching(x, y, a.thread, b.thread)
}

// The same by what the events touch, and their threads.
fn touching(x: Touch, y: Touch, s: u8, t: u8) -> bool
    ensures { result ≡ eqb s t || (same (variable x) (variable y) && (is_write x || is_write y)) || same (lock x) (lock y) || ((same (named x) (Some t) || same (named x) (named y)) || (same (named y) (Some s) || same (named y) (named x))) }
{
    let names = names_thread_of(x, y, t) | names_thread_of(y, x, s);
    let touch = (s == t) | same_variable_one_write(x, y) | same_lock(x, y);
    touch | names
}

// "they touch the same variable and at least one is a write"
fn same_variable_one_write(x: Touch, y: Touch) -> bool
    ensures { result ≡ same (variable x) (variable y) && (is_write x || is_write y) }
{
    let write = is_write(x) | is_write(y);
    same(variable(x), variable(y)) & write
}

// "they touch the same lock"
fn same_lock(x: Touch, y: Touch) -> bool
    ensures { result ≡ same (lock x) (lock y) }
{
    same(lock(x), lock(y))
}

// Whether the one forks or joins a thread which the other acts as, forks or joins; t is the thread that the other acts as.
fn names_thread_of(x: Touch, y: Touch, t: u8) -> bool
    ensures { result ≡ same (named x) (Some t) || same (named x) (named y) }
{
    let acts = same(named(x), Some(t));
    let other = same(named(x), named(y));
    acts | other
}

// The variable touched, the lock touched, and the thread forked or joined; none where there is none.
fn variable(x: Touch) -> Option<u8>
    ensures { result ≡ variable x }
{
    match x {
        Touch::Reads { variable } | Touch::Writes { variable } => Some(variable),
        _ => None,
    }
}

fn lock(x: Touch) -> Option<u8>
    ensures { result ≡ lock x }
{
    match x {
        Touch::Locks { lock } => Some(lock),
        _ => None,
    }
}

fn named(x: Touch) -> Option<u8>
    ensures { result ≡ named x }
{
    match x {
        Touch::Names { child } => Some(child),
        _ => None,
    }
}

fn is_write(x: Touch) -> bool
    ensures { result ≡ is_write x }
{
    matches!(x, Touch::Writes { .. })
}

// Whether both are there, and they are equal.
fn same(x: Option<u8>, y: Option<u8>) -> bool
    ensures { result ≡ same x y }
{
    match (x, y) {
        (Some(i), Some(j)) => i == j,
        _ => false,
    }
}
