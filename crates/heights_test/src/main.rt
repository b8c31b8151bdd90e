// Every height from -1,000 to 1,000 mm, and those at both ends of an i32, against a plain table: how many heights of each row the listing prints as the row says.
#![tactic(auto)]

use event::{Event, Operation};

// Heights that print alike: the first, the last, and how.
type Row = (i32, i32, &'static [u8]);

const AROUND_ZERO: [Row; 21] = [
    (-1000, -950, b"-1.0"),
    (-949, -851, b"-0.9"),
    (-850, -750, b"-0.8"),
    (-749, -651, b"-0.7"),
    (-650, -550, b"-0.6"),
    (-549, -451, b"-0.5"),
    (-450, -350, b"-0.4"),
    (-349, -251, b"-0.3"),
    (-250, -150, b"-0.2"),
    (-149, -51, b"-0.1"),
    (-50, 50, b"0.0"),
    (51, 149, b"0.1"),
    (150, 250, b"0.2"),
    (251, 349, b"0.3"),
    (350, 450, b"0.4"),
    (451, 549, b"0.5"),
    (550, 650, b"0.6"),
    (651, 749, b"0.7"),
    (750, 850, b"0.8"),
    (851, 949, b"0.9"),
    (950, 1000, b"1.0"),
];

const AT_BOTH_ENDS: [Row; 6] = [
    (-2147483648, -2147483550, b"-2147483.6"),
    (-2147483549, -2147483451, b"-2147483.5"),
    (-2147483450, -2147483350, b"-2147483.4"),
    (2147483350, 2147483450, b"2147483.4"),
    (2147483451, 2147483549, b"2147483.5"),
    (2147483550, 2147483647, b"2147483.6"),
];

// What no height prints: a sign before zero, what document 01 had for 50 and -50 mm, and halves at the odd tenth. Each count is 0, so that a row is seen to fail.
const NOT_SO: [Row; 5] = [
    (-1000, 1000, b"-0.0"),
    (50, 50, b"0.1"),
    (-50, -50, b"-0.1"),
    (150, 150, b"0.1"),
    (250, 250, b"0.3"),
];

fn main() {
    console::count(b"from -1000 to 1000 mm", counted(&AROUND_ZERO));
    console::count(b"at both ends", counted(&AT_BOTH_ENDS));
    console::count(b"otherwise", counted(&NOT_SO));
}

// Says of each row how many heights print so, and counts them all.
fn counted(rows: &[Row]) -> u64 {
    let mut all: u64 = 0;
    for &(first, last, text) in rows {
        let count = heights(first, last, text);
        console::count(text, count);
        all = all.wrapping_add(count);
    }
    all
}

// How many heights of the row print so. They are looked for among those from -1,000 up, from the lowest up, and up to the highest.
fn heights(first: i32, last: i32, text: &[u8]) -> u64 {
    (-1000..=1000)
        .chain(i32::MIN..=i32::MIN + 2000)
        .chain(i32::MAX - 2000..=i32::MAX)
        .filter(|&mm| (first..=last).contains(&mm) && prints(mm, text))
        .count() as u64
}

// Whether the listing of a log with a write of this height, and of the slot that it fits, is that of a match with this text.
fn prints(mm: i32, text: &[u8]) -> bool {
    let mut log = [0u8; 8];
    let _ = writer::write_event(&mut log, 0, write(mm));
    let mut listed = [0u8; page::ROOM];
    let _ = listing_text::write(b"\x02\x00\x00\x00", &log, &mut listed);
    let mut due = [0u8; page::ROOM];
    let _ = page::empty()
        .text(b"match at 1\n1 event 1 thread 0 write 0 ")
        .text(text)
        .text(b"\n")
        .put(&mut due);
    listed == due
}

fn write(mm: i32) -> Event {
    Event {
        thread: 0,
        operation: Operation::Write {
            variable: 0,
            height: mm,
        },
    }
}
