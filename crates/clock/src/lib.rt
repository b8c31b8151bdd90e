// Vector clocks, updated in place as the events of a log arrive: each event is given its stamp.
#![tactic(auto)]

ghost use Rattle.std.specs.Prelude.{◌≡◌, cond, List, [], ◌+◌, ◌≤◌, ◌<◌, max, length, replicate};
ghost use Rattle.event.specs.declared.Event.{Event};
ghost use Rattle.event.specs.declared.Operation.TheVariants.{Mark};
ghost use Rattle.event.specs.Limits.{threads, events};
ghost use Rattle.event.specs.Slots.{slot_of};
ghost use Rattle.event.specs.Range.{range_refusal};
ghost use Rattle.event.specs.Effects.{touches};
ghost use Rattle.dependence.specs.Channels.{thread, reads_of, writes_of, lock_of};
ghost use Rattle.clock.specs.Rows.{size, row_of, beside_of, rows_for};
ghost use Rattle.clock.specs.Clocks.{up, ticked_at, heard_from, told_to, heard, stamp_by, clocks_after, higher_of, count_of};
ghost use Rattle.clock.specs.Arrivals.{ClocksOf, Arrived};

use event::{Event, Operation, Touch};

// Kept: rows of numbers and not structs, since a session's parts are lent to C as they stand.
// A row has an entry for each thread. There is a row for each thread, for the reads and for the writes of each variable, and for each lock.
pub const THREADS: usize = event::THREADS as usize;

const FIRST_READS: usize = THREADS;

const FIRST_WRITES: usize = FIRST_READS + event::VARIABLES as usize;

const FIRST_LOCK: usize = FIRST_WRITES + event::VARIABLES as usize;

pub const CLOCKS: usize = (FIRST_LOCK + event::LOCKS as usize) * THREADS;

// For each thread, how many of its events come before the stamped one or are it.
#[derive(Clone, Copy)]
pub struct Stamp {
    pub at: [u16; THREADS],
}

// The stamp that counts no event.
pub const NO_STAMP: Stamp = Stamp { at: [0; THREADS] };

// Where the rows start that an event hears and tells beside its own; its own again where there is none.
#[derive(Clone, Copy)]
struct Rows {
    first: usize,
    second: usize,
    told: usize,
}

// The clocks of no events.
pub fn fresh() -> [u16; CLOCKS]
    ensures zeros { result ≡ replicate size 0 }
    ensures history { ClocksOf [] result }
{
    [0; CLOCKS]
}

// Takes one event and gives its stamp. One whose numbers are outside their limits gets no counts, and leaves the clocks as they were.
pub fn advance(clocks: &mut [u16; CLOCKS], e: Event) -> Stamp
    ensures stamp { result ≡ stamp_by clocks.old e }
    ensures after { clocks.new ≡ clocks_after clocks.old e }
    ensures history { (log : List Event) → ClocksOf log clocks.old → length log < events → range_refusal (slot_of e) ≡ 0 → Arrived log e result clocks.new }
{
    let op = e.operation;
    match op {
        Operation::Mark { mark } => alone(clocks, e.thread, mark),
        _ => arrive(clocks, e),
    }
}

// The same, of any event.
fn arrive(clocks: &mut [u16; CLOCKS], e: Event) -> Stamp
    ensures stamp { result ≡ stamp_by clocks.old e }
    ensures after { clocks.new ≡ clocks_after clocks.old e }
{
    if event::range(event::slot_of(e)).is_err() {
        return NO_STAMP;
    }
    let t = e.thread;
    let op = e.operation;
    let rows = rows_of(t, op);
    let s = listen(clocks, t, rows);
    tell(clocks, rows.told, s);
    tell(clocks, thread_row(t), s);
    s
}

// The same, of a mark that thread t passes: it hears and tells the row of its own thread alone. Which mark it is only the contract needs.
fn alone(clocks: &mut [u16; CLOCKS], t: u8, mark: u16) -> Stamp
    ensures stamp { result ≡ stamp_by clocks.old (record { thread = t; operation = Mark mark }) }
    ensures after { clocks.new ≡ clocks_after clocks.old (record { thread = t; operation = Mark mark }) }
{
    if t >= event::THREADS {
        return NO_STAMP;
    }
    let row = thread_row(t);
    let own = hear(NO_STAMP, clocks, row);
    let s = tick(own, t as usize);
    tell(clocks, row, s);
    s
}

fn rows_of(t: u8, op: Operation) -> Rows
    ensures { result ≡ rows_for (beside_of t (touches op)) }
{
    rows_beside(t, event::touch_of(op))
}

fn rows_beside(t: u8, touch: Touch) -> Rows
    ensures { result ≡ rows_for (beside_of t touch) }
{
    match touch {
        Touch::Reads { variable } => {
            let reads = reads_row(variable);
            let writes = writes_row(variable);
            Rows {
                first: writes,
                second: writes,
                told: reads,
            }
        }
        Touch::Writes { variable } => {
            let reads = reads_row(variable);
            let writes = writes_row(variable);
            Rows {
                first: writes,
                second: reads,
                told: writes,
            }
        }
        Touch::Locks { lock } => one_row(lock_row(lock)),
        Touch::Names { child } => one_row(thread_row(child)),
        Touch::Nothing => one_row(thread_row(t)),
    }
}

fn one_row(row: usize) -> Rows
    ensures { result ≡ record { first = row; second = row; told = row } }
{
    Rows {
        first: row,
        second: row,
        told: row,
    }
}

// Where the row of each channel starts.
fn thread_row(t: u8) -> usize
    ensures { result ≡ row_of (thread t) }
{
    t as usize * THREADS
}

fn reads_row(variable: u8) -> usize
    ensures { result ≡ row_of (reads_of variable) }
{
    (FIRST_READS + variable as usize) * THREADS
}

fn writes_row(variable: u8) -> usize
    ensures { result ≡ row_of (writes_of variable) }
{
    (FIRST_WRITES + variable as usize) * THREADS
}

fn lock_row(lock: u8) -> usize
    ensures { result ≡ row_of (lock_of lock) }
{
    (FIRST_LOCK + lock as usize) * THREADS
}

// The highest counts in the own row of thread t and in two more, with one more of t.
#[tactic(auto, unfolding(crate::specs::Clocks::heard))]
fn listen(clocks: &[u16; CLOCKS], t: u8, rows: Rows) -> Stamp
    requires { (t < threads) × ((rows.first + threads ≤ size) × (rows.second + threads ≤ size)) }
    ensures { result ≡ heard clocks.now t rows }
{
    let own = hear(NO_STAMP, clocks, thread_row(t));
    let first = hear(own, clocks, rows.first);
    let both = hear(first, clocks, rows.second);
    tick(both, t as usize)
}

// The stamp raised to the row that starts at `from`.
#[tactic(auto, unfolding(crate::specs::Clocks::raised, event::specs::Updated::updated))]
fn hear(s: Stamp, counts: &[u16], from: usize) -> Stamp
    requires { from + threads ≤ length counts.now }
    ensures { result ≡ heard_from s counts.now from }
{
    let mut r = s;
    // Kept: two rows go by one index and the loop becomes vectors; of what `iter_mut` with `zip` writes a proof knows nothing.
    for i in 0..THREADS {
        let count = r.at[i].max(counts[from + i]);
        r.at[i] = count;
    }
    r
}

// Raises the row to the stamp.
#[tactic(auto, unfolding(crate::specs::Clocks::raised, event::specs::Updated::updated))]
fn tell(clocks: &mut [u16; CLOCKS], to: usize, s: Stamp)
    requires { to + threads ≤ size }
    ensures { clocks.new ≡ told_to clocks.old to s }
{
    // Kept: two rows go by one index and the loop becomes vectors; of what `iter_mut` with `zip` writes a proof knows nothing.
    for i in 0..THREADS {
        let count = clocks[to + i].max(s.at[i]);
        clocks[to + i] = count;
    }
}

// One more of thread t. It goes through every entry, so that the counts stay in one vector.
#[tactic(auto, unfolding(event::specs::Updated::updated))]
fn tick(s: Stamp, t: usize) -> Stamp
    ensures { result ≡ ticked_at s t }
{
    let mut r = s;
    // Kept: the index is compared with the thread, and the loop becomes vectors.
    for i in 0..THREADS {
        let count = next_count(r.at[i], t == i);
        r.at[i] = count;
    }
    r
}

// One more for an event of the own thread, so far as a count goes.
pub fn next_count(x: u16, own: bool) -> u16
    ensures { result ≡ cond own (up x) x }
{
    if own { x.saturating_add(1) } else { x }
}

// The higher count of each thread in two stamps.
pub fn join(a: Stamp, b: Stamp) -> Stamp
    ensures { result ≡ higher_of a b }
{
    hear(a, &b.at, 0)
}

// How many events of a thread a stamp counts; 0 where there is no such thread.
pub fn count_of(thread: u8, s: Stamp) -> u16
    ensures { result ≡ count_of thread s }
{
    s.at.get(thread as usize).copied().unwrap_or(0)
}
