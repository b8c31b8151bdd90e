// The words of the vectors: a word is told by its first letter, and with a hyphen in it asks the same of a slot or a pattern.
use crate::{commands, judged, patterns, whole};

// What a line asks: `tall` where it speaks of events and logs, whose writes have heights; the numbers in its last two fields.
#[derive(Clone, Copy)]
pub struct Asked {
    pub word: u8,
    pub tall: bool,
    pub first: usize,
    pub second: usize,
}

// Prints the title and the answer. The bytes are those of the first field, behind the head, and of the second.
pub(crate) fn print(q: Asked, title: &[u8], bytes: &[u8], other: &[u8]) {
    console::text(title);
    after_title(q.word);
    answer(q, bytes, other);
    console::text(b"\n");
}

// A space stands before each byte that is shown, and what is judged has lines of its own.
fn after_title(word: u8) {
    match word {
        b'b' | b'd' => console::text(b":"),
        b'j' => {}
        _ => console::text(b": "),
    }
}

fn answer(q: Asked, bytes: &[u8], other: &[u8]) {
    let word = q.word;
    match word {
        // read: LOG; read-pattern: PATTERN; kept-slots: PATTERN
        b'r' => whole::read(q.tall, bytes),
        b'k' => patterns::kept(bytes),
        // command: BYTES | PLACE; back: COMMAND
        b'c' => commands::at(bytes, q.first, q.tall),
        b'b' => commands::back(commands::of(bytes, q.tall), q.tall),
        // write: COMMAND | PLACE | ROOM; end: | PLACE | ROOM
        b'w' => commands::write(commands::of(bytes, q.tall), q.tall, q.first, q.second),
        b'e' => commands::end(q.first, q.second),
        // trip: LOG; dump: LOG | SHOWN
        b't' => whole::trip(q.tall, bytes),
        b'd' => whole::dump(q.tall, bytes, q.first),
        // fit: EVENT | SLOT; slot: EVENT
        b'f' => commands::fit(commands::of(bytes, true), commands::of(other, false)),
        b's' => commands::show_slot(event::slot_of(commands::of(bytes, true))),
        // order: LOG | FIRST | SECOND; judge: LOG | PATTERN; verdict: LOG | PATTERN; more: EVENT | PATTERN | COUNT;
        // play: LOG | PATTERN | ROOM
        b'o' => judged::order(bytes, q.first, q.second),
        b'j' => judged::both(bytes, other),
        b'v' => judged::run(bytes, other),
        b'm' => judged::more(commands::of(bytes, true), other, q.second),
        b'p' => judged::replay(bytes, other, q.second),
        // given: LOG; given-after: LOG | ORDER
        b'g' => judged::given(q.tall, bytes, other),
        _ => console::text(b"NO SUCH WORD"),
    }
}
