// The table that keeps, for every set of a pattern's slots, the greatest partial match, as the events of a log arrive.
#![tactic(auto)]

ghost use Rattle.std.specs.Prelude.{◌≡◌, ◌↔◌, true, false, cond, List, [], ◌∷◌, ◌++◌, ◌+◌, ◌-◌, ◌*◌, ◌^◌, ◌≤◌, ◌<◌, length};
ghost use Rattle.event.specs.declared.Event.{Event};
ghost use Rattle.event.specs.declared.Slot.{Slot};
ghost use Rattle.event.specs.Limits.{slots as slot_limit};
ghost use Rattle.trace.specs.Match.{HasMatch};
ghost use Rattle.dependence.specs.Dependence.{dependent};
ghost use Rattle.table.specs.Sets.{sets, width, size as table_size};
ghost use Rattle.table.specs.Table.{pasted, row_at, room_in, limit_at, limits_after, with_entry, set_offered, swept_to, offered, fresh_table, last_row, found_in, numbers_in};
ghost use Rattle.table.specs.Keeps.{Fits, ByThread, Keeps, Follows, NumbersFound};

use clock::Stamp;

// A row has the places of the slots, then their event numbers, and last whether there is a row.
// Kept: rows of numbers and not structs, since a session's parts are lent to C as they stand, and a row is read and compared as one vector.
const LANES: usize = 8;

const ROW: usize = 2 * LANES;

const HELD: usize = ROW - 1;

const ABSENT: u16 = 65535;

const SETS: usize = 1 << event::SLOTS;

pub const TABLE: usize = SETS * ROW;

#[derive(Clone, Copy)]
struct Row {
    at: [u16; ROW],
}

// For each slot, the least place that an event of it may have.
#[derive(Clone, Copy)]
struct Limits {
    at: [u16; LANES],
}

// What an event puts into a row: its place and its number, at a slot.
#[derive(Clone, Copy)]
struct Entry {
    slot: usize,
    place: u16,
    number: u16,
}

// The table of no events: the empty set has a row.
pub fn fresh() -> [u16; TABLE]
    ensures exact { result ≡ fresh_table }
    ensures history { (fits : Fits) (ss : List Slot) → length ss ≤ slot_limit → Keeps fits ss [] result }
{
    let mut table = [0u16; TABLE];
    let none = Row {
        at: [
            ABSENT, ABSENT, ABSENT, ABSENT, ABSENT, ABSENT, ABSENT, ABSENT, 0, 0, 0, 0, 0, 0, 0, 1,
        ],
    };
    store(&mut table, 0, none);
    table
}

// Takes one event of a thread, which has this stamp and number and fits the slots that `fit` says; `acting` is the thread of each slot.
// A thread outside the limit, or a pattern of too many slots, leaves the table as it was.
pub fn offer(
    table: &mut [u16; TABLE],
    acting: [u8; event::SLOTS],
    fit: [bool; event::SLOTS],
    size: usize,
    thread: u8,
    stamp: Stamp,
    number: u16,
)
    ensures exact { table.new ≡ offered table.old acting fit size thread stamp number }
    ensures history { (fits : Fits) → ByThread fits → (ss : List Slot) (log : List Event) (e : Event) → thread ≡ e.thread → Keeps fits ss log table.old → Follows fits ss log acting fit size e stamp number → Keeps fits ss (log ++ (e ∷ [])) table.new }
{
    let t = thread as usize;
    if t >= clock::THREADS {
        return;
    }
    if size > event::SLOTS {
        return;
    }
    let place = stamp.at[t].saturating_sub(1);
    let half = power(size) / 2;
    for k in (0..size).rev() {
        if fit[k] {
            let limits = limits_after(acting, k, stamp);
            let entry = Entry {
                slot: k,
                place,
                number,
            };
            sweep(table, half, limits, entry);
        }
    }
}

fn power(k: usize) -> usize
    requires { k ≤ slot_limit }
    ensures { result ≡ 2 ^ k }
{
    1 << k
}

// The events of later slots may not come before the new one or be it: their places are at least its count of their threads.
#[tactic(auto, unfolding(event::specs::Updated::updated))]
fn limits_after(acting: [u8; event::SLOTS], k: usize, stamp: Stamp) -> Limits
    ensures { result ≡ limits_after acting k stamp }
{
    let mut r = Limits { at: [0; LANES] };
    // Kept: the index is compared with the slot, and the lanes beyond the slots stay 0.
    for j in 0..event::SLOTS {
        r.at[j] = if j > k {
            clock::count_of(acting[j], stamp)
        } else {
            0
        };
    }
    r
}

// Goes through the sets without the entry's slot, which are half of all: the bits of i, with a 0 pasted in at the slot.
fn sweep(table: &mut [u16; TABLE], half: usize, limits: Limits, entry: Entry)
    requires { (entry.slot < slot_limit) × (2 * half ≤ sets) }
    ensures { table.new ≡ swept_to half table.old limits entry }
{
    let k = entry.slot;
    let p = power(k);
    // Kept: the index is the set itself, and what is gone through is written.
    for i in 0..half {
        let m = i + (i >> k) * p;
        offer_set(table, m, p, limits, entry);
    }
}

// With the entry pasted into its row, the set m, which has not the entry's slot, gives the row of the set that has it too.
#[tactic(auto, unfolding(crate::specs::Table::set_offered))]
fn offer_set(table: &mut [u16; TABLE], m: usize, p: usize, limits: Limits, entry: Entry)
    requires { (entry.slot < slot_limit) × ((m + p < sets) × (p ≡ 2 ^ entry.slot)) }
    ensures { table.new ≡ set_offered table.old m limits entry }
{
    let from = m * ROW;
    if table[from + HELD] == 0 {
        return;
    }
    let r = row_at(table, from);
    if !room(r, limits) {
        return;
    }
    join(table, (m + p) * ROW, r, entry);
}

// Stores the row with the entry in it.
fn join(table: &mut [u16; TABLE], to: usize, r: Row, entry: Entry)
    requires { (to + width ≤ table_size) × (entry.slot < slot_limit) }
    ensures { table.new ≡ with_entry table.old to r entry }
{
    store(table, to, r);
    let k = entry.slot;
    table[to + k] = entry.place;
    table[to + LANES + k] = entry.number;
}

#[tactic(auto, unfolding(event::specs::Updated::updated, crate::specs::Table::row_at))]
fn row_at(table: &[u16; TABLE], from: usize) -> Row
    requires { from + width ≤ table_size }
    ensures { result ≡ row_at table.now from }
{
    let mut r = Row { at: [0; ROW] };
    // Kept: with `copy_from_slice` here and in `store` a row goes through memory, and a session takes its events 2% slower.
    for j in 0..ROW {
        r.at[j] = table[from + j];
    }
    r
}

#[tactic(auto, unfolding(event::specs::Updated::updated))]
fn store(table: &mut [u16; TABLE], to: usize, r: Row)
    requires { to + width ≤ table_size }
    ensures { table.new ≡ pasted width table.old to r.at 0 }
{
    // Kept: as in `row_at`.
    for j in 0..ROW {
        table[to + j] = r.at[j];
    }
}

// Kept: every lane is compared, where `all` would stop at the first that is too low, so that the row stays one vector.
#[tactic(auto, unfolding(crate::specs::Table::room_to))]
fn room(r: Row, limits: Limits) -> bool
    ensures { result ≡ room_in r limits }
{
    let mut ok = true;
    for j in 0..LANES {
        ok = ok & (limits.at[j] <= r.at[j]);
    }
    ok
}

// Whether the set of all slots has a row; no for a pattern of too many slots.
#[tactic(auto, unfolding(crate::specs::Table::found_in), using(crate::proofs::Verdict::found_match))]
pub fn found(table: &[u16; TABLE], size: usize) -> bool
    ensures exact { result ≡ found_in table.now size }
    ensures history { (fits : Fits) (ss : List Slot) (log : List Event) → Keeps fits ss log table.now → size ≡ length ss → (result ≡ true) ↔ HasMatch dependent fits ss log }
{
    size <= event::SLOTS && table[last_row(size) + HELD] != 0
}

// The count once event number n has been offered: n where all slots have a row, else 0.
// Kept: a number and not an Option, since a session keeps it among the parts that C lends.
pub fn count_at(table: &[u16; TABLE], size: usize, n: u16) -> u16
    ensures { result ≡ cond (found_in table.now size) n 0 }
{
    if found(table, size) { n } else { 0 }
}

// Where the row of all slots starts.
fn last_row(size: usize) -> usize
    requires { size ≤ slot_limit }
    ensures { (result ≡ last_row size) × (result + width ≤ table_size) }
{
    (power(size) - 1) * ROW
}

// The event numbers of that row in the slots' order; 0 beyond the slots, and where there is no row.
pub fn numbers(table: &[u16; TABLE], size: usize) -> [u16; event::SLOTS]
    ensures exact { result ≡ numbers_in table.now size }
    ensures history { (fits : Fits) (ss : List Slot) (log : List Event) → Keeps fits ss log table.now → size ≡ length ss → NumbersFound fits ss log result }
{
    if !found(table, size) {
        return [0; event::SLOTS];
    }
    let last = last_row(size);
    let mut r = [0u16; event::SLOTS];
    // Kept: with `copy_from_slice` the proof is twice as long, as each bound of both parts wants an answer, and the part a law of its own.
    for j in 0..size {
        r[j] = table[last + LANES + j];
    }
    r
}
