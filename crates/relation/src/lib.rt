// How two stamped events of a log stand to each other: same, before, after or free.
#![tactic(auto)]

ghost use Rattle.std.specs.Prelude.{ℕ, ◌≡◌, List};
ghost use Rattle.event.specs.declared.Event.{Event};
ghost use Rattle.relation.specs.Relation.{IsStamped, Relates};
ghost use Rattle.relation.specs.Compared.{one_event, comes_before, compared};

use clock::Stamp;

// How the first of two events stands to the second.
#[derive(Clone, Copy, PartialEq, Eq)]
pub enum Relation {
    Same,
    Before,
    After,
    Free,
}

// What is known of an event of a log: its thread, its place there (how many events of that thread come before it or are it), and its stamp.
#[derive(Clone, Copy)]
pub struct StampedEvent {
    pub thread: u8,
    pub place: u16,
    pub stamp: Stamp,
}

// Compares two stamped events.
pub fn compare(first: StampedEvent, second: StampedEvent) -> Relation
    ensures exact { result ≡ compared first second }
    ensures order { (log : List Event) (i j : ℕ) → IsStamped log i first → IsStamped log j second → Relates log i j result }
{
    if is_one(first, second) {
        return Relation::Same;
    }
    if comes_before(first, second) {
        return Relation::Before;
    }
    if comes_before(second, first) {
        return Relation::After;
    }
    Relation::Free
}

// Whether they are one event: each has a thread, and a place there that no other event has.
fn is_one(a: StampedEvent, b: StampedEvent) -> bool
    ensures { result ≡ one_event a b }
{
    a.thread == b.thread && a.place == b.place
}

// Whether the one comes before the other or is it: the other's stamp then counts as far as its place.
fn comes_before(a: StampedEvent, b: StampedEvent) -> bool
    ensures { result ≡ comes_before a.thread a.place b.stamp }
{
    a.thread < event::THREADS && a.place <= clock::count_of(a.thread, b.stamp)
}
