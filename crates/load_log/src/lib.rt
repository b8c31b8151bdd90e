// The load of a seed and a count: a log that any machine can make again, in a lent buffer.
#![tactic(auto)]

ghost use Rattle.std.specs.Prelude.{◌≤◌, ◌≡◌, length};
ghost use Rattle.event.specs.Limits.{events};
ghost use Rattle.writer.specs.Writing.{written, written_is, put};
ghost use Rattle.load_log.specs.Load.{load_bytes, loading, loaded};

use event::refusal::{Refusal, Refused};

// Every load has room in so many bytes: a write's command has seven, and no other has more.
pub const ENOUGH: usize = 7 * event::EVENTS + 1;

// Writes the load at the start of a lent buffer: its length; or 22 for a count above 65,535, and then 15 where the whole log does not fit.
pub fn write(seed: u32, count: usize, buffer: &mut [u8]) -> Result<usize, Refused>
    ensures answer { written_is result ≡ loading seed count buffer.old }
    ensures after { buffer.new ≡ loaded seed count buffer.old }
{
    if event::EVENTS < count {
        return Err(Refusal::LoadTooLong.at(0));
    }
    if buffer.len() < load_size(seed, count) {
        return Err(Refusal::NoRoom.at(0));
    }
    put_all(seed, count, buffer)
}

// How many bytes a load has, with its closing 00.
#[tactic(auto, using(crate::proofs::Load::counted, crate::proofs::Load::none_longer, crate::proofs::Load::load_length))]
fn load_size(seed: u32, count: usize) -> usize
    requires { count ≤ events }
    ensures { result ≡ length (load_bytes seed count) }
{
    let mut state = seed;
    let mut size = 1;
    for _ in 0..count {
        state = generator::step(state);
        size += writer::event_size(generator::event_in(state));
    }
    size
}

// Writes a load that fits.
#[tactic(auto, using(crate::proofs::Calls::one_call, crate::proofs::Calls::all_written))]
fn put_all(seed: u32, count: usize, buffer: &mut [u8]) -> Result<usize, Refused>
    requires { (count ≤ events) × (length (load_bytes seed count) ≤ length buffer.old) }
    ensures answer { written_is result ≡ written (length (load_bytes seed count)) }
    ensures after { buffer.new ≡ put (load_bytes seed count) buffer.old 0 }
{
    let mut state = seed;
    let mut at = 0;
    for _ in 0..count {
        state = generator::step(state);
        at = writer::write_event(buffer, at, generator::event_in(state))?;
    }
    writer::write_end(buffer, at)
}
