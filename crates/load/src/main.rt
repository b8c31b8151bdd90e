// Writes load.bin, the load of a seed and a count, in the folder where it is run, and prints its length. Seed and count are its two arguments.
#![tactic(auto)]

use load_text::LoadError;
use std::io::{Eprint, Print};

// What is printed says that the file is there, so a file that can't be written leaves nothing to print.
fn main(rt: HostRuntime) {
    let pair = arguments::given_pair(&rt);
    let mut space = [0u8; load_log::ENOUGH];
    let made = load_text::make_load(pair, &mut space);
    match files::save_load(&rt, made, &space) {
        Ok(()) => print(&rt, made),
        Err(error) => files::fail(&rt, b"load.bin", error),
    }
}

fn print<R: Print + Eprint>(rt: &R, made: Result<usize, LoadError>) {
    let mut page = [0u8; page::ROOM];
    let written = load_text::write(made, &mut page);
    files::print_written(rt, b"load", &page, written);
}
