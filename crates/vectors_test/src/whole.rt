// Whole logs: how many events, or the refusal; logs and patterns copied command by command.
ghost use Rattle.std.specs.Prelude.{◌≡◌, length};

use crate::patterns;
use command::Reading;
use event::refusal::Refused;

// A log, or a pattern.
// Kept: a line of stdin says which, so that here a flag has to choose; below it `copy` takes the reading and the writing.
pub(crate) fn read(tall: bool, bytes: &[u8]) {
    if tall {
        read_log(bytes);
    } else {
        patterns::read(bytes);
    }
}

fn read_log(bytes: &[u8]) {
    match event_log::read_log(bytes) {
        Ok(events) => {
            console::number(events as u64);
            console::text(b" events");
        }
        Err(refused) => console::refused(refused),
    }
}

// A copy made by reading and writing each command, held to the bytes that were read.
pub(crate) fn trip(tall: bool, bytes: &[u8]) {
    let mut space = [0xEEu8; 64];
    let same = match copy_of(tall, bytes, &mut space) {
        Ok(n) => console::starts_with(&space, n, bytes),
        Err(_) => false,
    };
    console::text(if same { b"same bytes" } else { b"OTHER BYTES" });
}

// The same copy into bytes EE, of which so many are shown.
pub(crate) fn dump(tall: bool, bytes: &[u8], shown: usize) {
    let mut space = [0xEEu8; 64];
    let _ = copy_of(tall, bytes, &mut space);
    if let Some(first) = space.get(..shown) {
        console::bytes(first);
    }
}

fn copy_of(tall: bool, bytes: &[u8], space: &mut [u8]) -> Result<usize, Refused> {
    if tall {
        return copy(bytes, space, command::read_event, writer::write_event);
    }
    copy(bytes, space, command::read_slot, writer::write_slot)
}

// Reads each command at its place and writes it, then the closing 00; answers how many bytes that made.
fn copy<T, R, W>(bytes: &[u8], space: &mut [u8], read: R, write: W) -> Result<usize, Refused>
where
    T: Copy,
    R: Fn(&[u8], usize) -> Reading<T>,
    W: Fn(&mut [u8], usize, T) -> Result<usize, Refused>,
    requires reads { R.IsAlwaysCallable read }
    requires writes { W.IsAlwaysCallable write }
{
    let mut from: usize = 0;
    let mut to: usize = 0;
    for _ in 0..bytes.len() {
        let Ok(Some((item, next))) = read(bytes, from) else {
            return writer::write_end(space, to);
        };
        to = write(space, to, item)?;
        from = next;
    }
    Ok(to)
}
