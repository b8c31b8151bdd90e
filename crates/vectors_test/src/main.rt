// Reads vectors from standard input, a line for each, and prints what the library answers: to add a vector is to add a line.
// A line is WORD TITLE: FIELD | FIELD | FIELD, a field being bytes in hexadecimal or a number. Its title is printed, and then the answer.
#![tactic(auto)]

mod admission;
mod answers;
mod buffers;
mod commands;
mod judged;
mod patterns;
mod spelled;
mod whole;

use answers::Asked;

// More than the vectors take, in bytes.
const LINES: usize = 131072;

// 65,536 events and more, in bytes.
const SPACE: usize = 262160;

fn main() {
    let mut lines = [0u8; LINES];
    let mut space = [0u8; SPACE];
    let mut state = rules::fresh();
    let n = io::read_full(0, &mut lines);
    all(&lines[..n], &mut space, &mut state);
}

fn all(lines: &[u8], space: &mut [u8], state: &mut [u8; rules::STATE]) {
    let mut head: usize = 0;
    for vector in lines.split(|b| *b == b'\n') {
        head = line(vector, space, head, state);
    }
}

// Does what a line asks. The first `head` bytes of the space stand before the bytes of every vector; the answer is their number after the line.
fn line(line: &[u8], space: &mut [u8], head: usize, state: &mut [u8; rules::STATE]) -> usize {
    match spelled::first(line) {
        0 => head,
        b'#' => head,
        b'h' => new_head(line, space),
        b'l' => longer_head(line, space, head),
        b'n' => {
            admission::renew(state);
            head
        }
        b'a' => {
            admit(line, state);
            head
        }
        _ => {
            vector(line, space, head);
            head
        }
    }
}

// head: BYTES | COUNT. The vectors after it begin with these bytes, and then so many marks.
fn new_head(line: &[u8], space: &mut [u8]) -> usize {
    let colon = console::find(line, 0, b':');
    let bar = console::find(line, colon, b'|');
    let n = spelled::put_bytes(line, colon, space, 0);
    buffers::put_marks(space, n, spelled::decimal(line, bar))
}

// longer: BYTES | COUNT. The head goes on with these bytes, so many times.
fn longer_head(line: &[u8], space: &mut [u8], head: usize) -> usize {
    let colon = console::find(line, 0, b':');
    let bar = console::find(line, colon, b'|');
    let count = spelled::decimal(line, bar);
    let mut end = head;
    for _ in 0..count {
        end = spelled::put_bytes(line, colon, space, end);
    }
    end
}

// admit TITLE: EVENT | TAKEN | TIMES. Hands an event to the rules, the number of those taken before it given; so many times before, unasked.
fn admit(line: &[u8], state: &mut [u8; rules::STATE]) {
    let mut bytes = [0u8; 16];
    let colon = console::find(line, 0, b':');
    let bar = console::find(line, colon, b'|');
    let last = console::find(line, bar + 1, b'|');
    let times = spelled::decimal(line, last);
    let from = spelled::title_from(line, colon);
    let n = spelled::put_bytes(line, colon, &mut bytes, 0);
    let e = commands::of(&bytes[..n], true);
    console::text(&line[from..colon]);
    admission::repeat(state, e, times);
    admission::admit(state, spelled::decimal(line, bar), e);
}

fn vector(line: &[u8], space: &mut [u8], head: usize) {
    let colon = console::find(line, 0, b':');
    let bar = console::find(line, colon, b'|');
    let last = console::find(line, bar + 1, b'|');
    let mut second = [0u8; 64];
    let m = spelled::put_bytes(line, bar, &mut second, 0);
    let n = spelled::put_bytes(line, colon, space, head);
    let from = spelled::title_from(line, colon);
    let asked = Asked {
        word: spelled::first(line),
        tall: from <= console::find(line, 0, b'-'),
        first: spelled::decimal(line, bar),
        second: spelled::decimal(line, last),
    };
    answers::print(asked, &line[from..colon], &space[..n], &second[..m]);
}
