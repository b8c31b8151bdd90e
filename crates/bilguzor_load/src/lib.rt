// The function that programs in C and Rust call to make a load: a library of its own, so that the others are compiled as if it were not there.
#![tactic(auto)]

ghost use Rattle.std.specs.Prelude.{◌≡◌};
ghost use Rattle.load_log.specs.Load.{loading, loaded};
ghost use Rattle.bilguzor_load.specs.LoadNumbers.{load_numbers};

// Kept: the C interface gives a refusal as a number, and a length beside it.
// What became of a load: number 0 where it is written, and how many bytes it has.
#[repr(C)]
#[derive(Clone, Copy)]
pub struct Load {
    pub number: u8,
    pub offset: usize,
    pub length: usize,
}

// Writes the load of a seed and a count at the start of the lent buffer. On a refusal the buffer stays as it was.
#[unsafe(no_mangle)]
pub extern "C" fn bilguzor_load(seed: u32, count: usize, buffer: &mut [u8]) -> Load
    ensures answer { result ≡ load_numbers (loading seed count buffer.old) }
    ensures after { buffer.new ≡ loaded seed count buffer.old }
{
    match load_log::write(seed, count, buffer) {
        Ok(size) => Load {
            number: 0,
            offset: 0,
            length: size,
        },
        Err(refused) => Load {
            number: refused.reason.number(),
            offset: refused.offset,
            length: 0,
        },
    }
}
