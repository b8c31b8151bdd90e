// Loads held to stored logs, which were made by other means from the words of Note 11; what is refused, 22 and 15, on both sides of their limits, with the
// buffer as it was; and loads saved as the program `load` saves them.
#![tactic(auto)]

use event::refusal::Refused;
use files::ProcessId;
use std::rt::Files;

// A byte more than any load has, so that what stands behind one is seen.
const SPACE: usize = load_log::ENOUGH + 1;

// What the space holds before.
const BEFORE: u8 = 255;

// The stored logs, each with its seed and count.
const STORED: [(&[u8], u32, usize); 10] = [
    (b"/0_0.bin", 0, 0),
    (b"/0_1.bin", 0, 1),
    (b"/0_1000.bin", 0, 1000),
    (b"/0_65535.bin", 0, 65535),
    (b"/1_1.bin", 1, 1),
    (b"/1_1000.bin", 1, 1000),
    (b"/1013904223_64.bin", 1013904223, 64),
    (b"/2147483648_300.bin", 2147483648, 300),
    (b"/4294967295_0.bin", 4294967295, 0),
    (b"/4294967295_1000.bin", 4294967295, 1000),
];

// Seed, count, and how long the buffer is. 22 goes before 15. A buffer one byte short, and one as long as the log.
const LIMITS: [(u32, usize, usize); 10] = [
    (0, 0, 0),
    (0, 0, 1),
    (0, 1, 4),
    (0, 1, 5),
    (0, 65535, 0),
    (0, 65535, 294924),
    (0, 65535, 294925),
    (0, 65536, 0),
    (0, 65536, SPACE),
    (4294967295, 18446744073709551615, SPACE),
];

// What `load` is asked for, one after another, and the stored log that load.bin is then.
const SAVED: [(u64, u64, &[u8]); 5] = [
    (0, 1000, b"/0_1000.bin"),
    (4294967295, 65536, b"/0_1000.bin"),
    (4294967296, 1, b"/0_1000.bin"),
    (4294967295, 1000, b"/4294967295_1000.bin"),
    (1, 1000, b"/0_1000.bin"),
];

fn main(rt: HostRuntime) {
    for (name, seed, count) in STORED {
        stored(&rt, name, seed, count);
    }
    others(&rt);
    for (seed, count, room) in LIMITS {
        tried(seed, count, room);
    }
    saved(&rt);
}

// Another seed, a count one lower, and no file: none is as stored; and the closing 00 of a log is not what the space held: so that both comparisons are seen
// to fail.
fn others(rt: &impl Files) {
    stored(rt, b"/0_1000.bin", 1, 1000);
    stored(rt, b"/1_1000.bin", 1, 999);
    stored(rt, b"/none.bin", 0, 0);
    let mut space = [BEFORE; SPACE];
    make(0, 1, &mut space);
    console::text(b" from its closing 00 on");
    untouched(&space, 4);
}

fn named(seed: u32, count: usize) {
    console::numbered(b"seed ", seed as u64);
    console::numbered(b" count ", count as u64);
}

// Makes a load: its length, whether it is the stored log, how many events are read of it, and whether every byte behind it is as it was.
fn stored(rt: &impl Files, name: &[u8], seed: u32, count: usize) {
    let mut space = [BEFORE; SPACE];
    let at = make(seed, count, &mut space);
    compare(rt, name, &space, at);
    read(&space, at);
    untouched(&space, at);
}

fn make(seed: u32, count: usize, space: &mut [u8]) -> usize {
    named(seed, count);
    said(load_log::write(seed, count, space))
}

// Says what was answered: the length, or 0 after a refusal.
fn said(written: Result<usize, Refused>) -> usize {
    match written {
        Ok(size) => {
            console::numbered(b": ", size as u64);
            console::text(b" bytes");
            size
        }
        Err(refused) => {
            console::text(b": ");
            console::refused(refused);
            0
        }
    }
}

// Says how many events are read of the space's first bytes.
fn read(space: &[u8], size: usize) {
    let Some(log) = space.get(..size) else {
        return;
    };
    match event_log::read_log(log) {
        Ok(events) => {
            console::numbered(b", ", events as u64);
            console::text(b" events accepted");
        }
        Err(refused) => {
            console::text(b", as a log ");
            console::refused(refused);
        }
    }
}

// Ends the line by what is so of the space from a place on.
fn untouched(space: &[u8], from: usize) {
    let so = space.iter().skip(from).all(|&b| b == BEFORE);
    tell(so, b", nothing behind\n", b", WRITTEN BEHIND\n");
}

// Makes a load in a buffer of so many bytes: what is answered, and whether every byte behind the log, or every byte after a refusal, is as it was.
fn tried(seed: u32, count: usize, room: usize) {
    let mut space = [BEFORE; SPACE];
    named(seed, count);
    console::numbered(b" in ", room as u64);
    let at = said(lent(seed, count, &mut space, room));
    untouched(&space, at);
}

fn lent(seed: u32, count: usize, space: &mut [u8], room: usize) -> Result<usize, Refused> {
    let room = room.min(space.len());
    load_log::write(seed, count, &mut space[..room])
}

// A load that was made is saved over an older one and read again; where none was made the file stays.
fn saved<R: Files + ProcessId>(rt: &R) {
    let _ = files::save(rt, b"load.bin", b"an older text");
    for (first, second, name) in SAVED {
        save(rt, first, second, name);
    }
}

// Saves what these arguments ask for: whether that went well, and whether load.bin is then this stored log.
fn save<R: Files + ProcessId>(rt: &R, first: u64, second: u64, name: &[u8]) {
    console::numbered(b"saved ", first);
    console::numbered(b" ", second);
    let mut space = [BEFORE; SPACE];
    let well = make_and_save(rt, (first, second), &mut space);
    tell(well, b": well", b": badly");
    let k = files::read(rt, b".", b"/load.bin", &mut space);
    compare(rt, name, &space, k);
    console::text(b"\n");
}

fn make_and_save<R: Files + ProcessId>(rt: &R, pair: (u64, u64), space: &mut [u8]) -> bool {
    let made = load_text::make_load(Some(pair), space);
    files::save_load(rt, made, space).is_ok()
}

// Whether the first bytes of the space are a stored log.
fn compare(rt: &impl Files, name: &[u8], space: &[u8], size: usize) {
    let mut due = [0u8; SPACE];
    let n = files::read(rt, b".", name, &mut due);
    let same = console::starts_with(space, size, &due[..n]);
    tell(same, b", as stored", b", NOT AS STORED");
}

fn tell(so: bool, text: &[u8], other: &[u8]) {
    if so {
        console::text(text);
    } else {
        console::text(other);
    }
}
