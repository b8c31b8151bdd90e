// The replay order of a log, by the events that a match names: written group by group, each command as it stands.
#![tactic(auto)]

ghost use Rattle.std.specs.Prelude.{◌≡◌, Bool, true, List, ℕ, ◌+◌, ◌≤◌, min, length, take};
ghost use Rattle.event.specs.declared.Event.{Event};
ghost use Rattle.event.specs.Limits.{slots as slot_limit};
ghost use Rattle.replay_passes.specs.Copies.{ReadAs, NamedAmong, commands, copied, between, Tells, CopiedIf, Copies, Replays};

use clock::Stamp;

// Writes the replay of a log at the start of a lent buffer, by the numbers of the slots' events, which are among its first n: how many bytes it has.
pub fn write(
    log: &[u8],
    n: usize,
    numbers: [u16; event::SLOTS],
    size: usize,
    buffer: &mut [u8],
) -> usize
    requires { size ≤ slot_limit }
    ensures { (es : List Event) → ReadAs log.now es → NamedAmong es numbers size n → length log.now ≤ length buffer.old → Replays es (take size numbers) buffer.old result buffer.new }
{
    let stamps = event_stamps::stamps_of(log, n, numbers);
    let mut written = clock::NO_STAMP;
    let mut at: usize = 0;
    for j in 0..size {
        let stamp = stamps[j];
        at = copy_between(log, numbers[j] as usize, written, stamp, buffer, at);
        written = clock::join(written, stamp);
    }
    // No place is above the highest count: the rest is all that lies above what is written.
    let all = Stamp {
        at: [u16::MAX; clock::THREADS],
    };
    let end = copy_between(log, event::EVENTS, written, all, buffer, at);
    copy(buffer, end, &[0])
}

// Copies those of the first n events whose place in their thread is above the one stamp's count and within the other's, from a place of the buffer on:
// the place after them.
fn copy_between(
    log: &[u8],
    n: usize,
    above: Stamp,
    within: Stamp,
    buffer: &mut [u8],
    start: usize,
) -> usize
    ensures { (es : List Event) (test : ℕ → ℕ → Bool) → ReadAs log.now es → Tells test es above within → start + length (commands (copied test es (min n (length es)))) ≤ length buffer.old → Copies (copied test es (min n (length es))) buffer.old start result buffer.new }
{
    let mut seen = [0u16; clock::THREADS];
    let mut to = start;
    let mut at: usize = 0;
    for i in 0..n {
        let next = command::next_at(log, at);
        if next == at {
            return to;
        }
        // A log that was judged has no thread above the limit.
        let t = log[at + 1] as usize;
        if t >= clock::THREADS {
            return to;
        }
        let place = clock::next_count(seen[t], true);
        seen[t] = place;
        if lies_between(above.at[t], within.at[t], place) {
            to = copy(buffer, to, &log[at..next]);
        }
        at = next;
    }
    to
}

fn lies_between(low: u16, high: u16, place: u16) -> bool
    ensures { result ≡ between low high place }
{
    low < place && place <= high
}

// Copies bytes to a place of the buffer where there is room for them: the place after them.
fn copy(buffer: &mut [u8], at: usize, bytes: &[u8]) -> usize
    ensures { CopiedIf true bytes.now buffer.old at result buffer.new }
{
    writer::put(buffer, at, bytes).unwrap_or(at)
}
