// Prints the listing of pattern.bin and log.bin, read in the folder where it is run, and where there is no match why.
#![tactic(auto)]

use std::io::{Eprint, Print};
use std::rt::Files;

fn main(rt: HostRuntime) {
    if 1 < arguments::arg_count(&rt) {
        files::print(&rt, b"reason", b"usage: reason\n");
        return;
    }
    print(&rt);
}

fn print<R: Files + Print + Eprint>(rt: &R) {
    let mut page = [0u8; page::ROOM];
    let written = files::reason(rt, b".", &mut page);
    files::print_written(rt, b"reason", &page, written);
}
